//! The library for C: the calls on `ecow_list`, `ecow_bytes`, `ecow_text`, `ecow_texts` and
//! `ecow_value`.
#![tactic(auto)]

mod assign;
mod compare;
mod elements;
mod paths;
mod pointer;
mod room;
mod status;
mod text;
mod value;
