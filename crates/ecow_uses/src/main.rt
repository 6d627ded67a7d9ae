//! Small programs over the vector, the text and the counted store, each with a law that matters to
//! its user. The program runs each of them on an example.
#![tactic(auto)]

mod history;
mod keys;
mod layers;
mod lines;
mod nested;
mod settings;
mod symbols;
mod template;
mod tree;
mod undo;
mod versions;
mod writing;

use crate::symbols::{Interner, Scope};
use crate::tree::Node;
use crate::undo::History;
use crate::versions::Versions;
use anyhow::Result;
use ecow_bytes::EcoBytes;
use ecow_counted::Counted;
use ecow_list::{EcoVec, eco_vec};
use ecow_model::VecCommand;
use ecow_nested::{Fields, Step, Value};
use ecow_string::EcoString;
use ecow_tree::EcoTree;
use std::collections::BTreeMap;

fn main(rt: HostRuntime) -> Result<()> {
    edit_a_document(&rt)?;
    try_out_settings(&rt)?;
    fill_a_letter(&rt)?;
    shadow_a_name(&rt)?;
    replace_a_node(&rt)?;
    set_a_value(&rt)?;
    lay_over_settings(&rt)?;
    write_in_place(&rt)?;
    go_back(&rt)?;
    edit_a_long_text(&rt)?;
    compare_keys(&rt)?;
    append_to_lines(&rt)?;
    collect_items(&rt)?;
    collect_texts(&rt)
}

fn edit_a_document(rt: &HostRuntime) -> Result<()> {
    let alloc = rt.alloc();
    let mut history = History::new(alloc);
    history.insert(0, EcoString::from_str(alloc, "a line of the document")?)?;
    let kept = history.snapshot()?;
    replace_a_line(rt, &mut history)?;
    println!(rt; "now: {:?}, in the snapshot: {kept:?}", history.lines())?;
    Ok(())
}

fn replace_a_line(rt: &HostRuntime, history: &mut History) -> Result<()> {
    if history.lines().is_empty() {
        return Ok(());
    }
    let other = EcoString::from_str(rt.alloc(), "another line")?;
    let undone = undo::replace_and_undo(history, 0, other)?;
    let (again, same) = (history.redo()?, undo::undo_and_redo(history)?);
    println!(rt; "undone: {undone}, made again: {again}, the same after both: {same}")?;
    Ok(())
}

fn try_out_settings(rt: &HostRuntime) -> Result<()> {
    let mut settings = Counted::new(rt.alloc());
    let filled = settings.fill(1, vec![in rt.alloc(); 10u64, 20, 30]?);
    let tried = settings::try_out(&mut settings, 1, 2, 0, 11).is_ok();
    let versions = [1, 2].map(|version| settings::value(&settings, version, 0));
    println!(rt;
        "settings: {}, tried out: {tried}, versions: {versions:?}, copied: {}, blocks: {}",
        filled.accepted,
        settings.copied(),
        settings.blocks()
    )?;
    branch_settings(rt, &mut settings)
}

fn branch_settings(rt: &HostRuntime, settings: &mut Counted<u64>) -> Result<()> {
    let branched = settings::branch(settings, rt.alloc(), 1, 3, 2, 33)?;
    let commands = vec![in rt.alloc(); VecCommand::Clear { name: 2 }]?;
    let outcomes = settings::replay(settings, commands)?;
    let value = settings::value(settings, 3, 2);
    println!(rt; "branched: {branched}, {outcomes} more, version 3: {value:?}")?;
    Ok(())
}

fn fill_a_letter(rt: &HostRuntime) -> Result<()> {
    let alloc = rt.alloc();
    let mut values = BTreeMap::new(alloc);
    let name = EcoString::from_str(alloc, "name")?;
    values.insert(name, EcoString::from_str(alloc, "Ada")?)?;
    for text in ["Dear {name},", "no hole", "a {hole that stays open"] {
        print_template(rt, text, &values)?;
    }
    Ok(())
}

fn print_template(
    rt: &HostRuntime,
    text: &str,
    values: &BTreeMap<EcoString, EcoString>,
) -> Result<()> {
    println!(rt; "{text} -> {:?}", template::fill(rt.alloc(), text, values)?)?;
    Ok(())
}

fn shadow_a_name(rt: &HostRuntime) -> Result<()> {
    let alloc = rt.alloc();
    let mut names = Interner::new(alloc);
    let mut outer = Scope::new(alloc);
    outer.bind(names.intern("x")?, 1)?;
    let name = names.intern("x")?;
    println!(rt; "names: {}", names.len())?;
    print_shadowed(rt, &outer, &name)
}

fn print_shadowed(rt: &HostRuntime, outer: &Scope, name: &EcoString) -> Result<()> {
    let (inside, outside) = symbols::shadow(outer, name, 2)?;
    println!(rt; "{name} inside: {inside:?}, outside: {outside:?}")?;
    Ok(())
}

fn replace_a_node(rt: &HostRuntime) -> Result<()> {
    let tree = a_tree(rt)?;
    if let Some((kept, changed)) = tree::replace_and_keep(&tree, &[0, 0], leaf(rt, "z")?)? {
        print_trees(rt, &kept, &changed)?;
    }
    print_child(rt, &tree)
}

fn print_trees(rt: &HostRuntime, before: &Node, after: &Node) -> Result<()> {
    println!(rt; "{} -> {}", text_of(rt, before)?, text_of(rt, after)?)?;
    Ok(())
}

fn print_child(rt: &HostRuntime, tree: &Node) -> Result<()> {
    if let Some(node) = tree.at(&[0]) {
        println!(rt;
            "first child: {}, nodes: {:?}",
            text_of(rt, node)?,
            tree.size()
        )?;
    }
    Ok(())
}

fn a_tree(rt: &HostRuntime) -> Result<Node> {
    let mut inner = leaf(rt, "g")?;
    inner.add(leaf(rt, "x")?)?;
    let mut tree = leaf(rt, "f")?;
    tree.add(inner)?;
    tree.add(leaf(rt, "y")?)?;
    Ok(tree)
}

fn leaf(rt: &HostRuntime, name: &str) -> Result<Node> {
    let alloc = rt.alloc();
    Ok(Node::new(alloc, EcoString::from_str(alloc, name)?))
}

fn text_of(rt: &HostRuntime, tree: &Node) -> Result<EcoString> {
    let mut text = EcoString::new(rt.alloc());
    tree.print(&mut text)?;
    Ok(text)
}

fn set_a_value(rt: &HostRuntime) -> Result<()> {
    let document = a_document(rt)?;
    set_number(rt, &document)?;
    let refused = nested::set_and_keep(&document, &[Step::Index(1)], Value::Number(7)).is_err();
    println!(rt; "at 1: nothing, and refused: {refused}")?;
    set_levels(rt)
}

fn set_number(rt: &HostRuntime, document: &Value) -> Result<()> {
    let path = [Step::Name(name(rt, "sizes")?), Step::Index(1)];
    let (kept, changed) = nested::set_and_keep(document, &path, Value::Number(7))?;
    print_number(rt, "before", &kept, &path)?;
    print_number(rt, "after", &changed, &path)
}

fn print_number(rt: &HostRuntime, word: &str, document: &Value, path: &[Step]) -> Result<()> {
    let number = document.at(path).and_then(|value| value.number());
    println!(rt; "{word}, at sizes, 1: {number:?}")?;
    Ok(())
}

/// Replaces values by shallower and by deeper ones, and prints the depth of the list.
fn set_levels(rt: &HostRuntime) -> Result<()> {
    let mut list = two_items(rt)?;
    let (at_first, lower) = (list.depth(), lowered(rt, &mut list)?);
    let mut other = a_document(rt)?;
    list.swap_at(&[Step::Index(1)], &mut other)?;
    let (depth, gone) = (list.depth(), other.number());
    println!(rt; "nests {at_first}, {lower} and {depth} deep, without {gone:?}")?;
    Ok(())
}

fn two_items(rt: &HostRuntime) -> Result<Value> {
    let items = eco_vec![in rt.alloc(); a_document(rt)?, Value::Number(1)]?;
    Ok(Value::from_items(items)?)
}

/// The depth of the list after a number replaced the deepest part of its document.
fn lowered(rt: &HostRuntime, list: &mut Value) -> Result<u32> {
    let path = [Step::Index(0), Step::Name(name(rt, "sizes")?)];
    list.set_at(&path, Value::Number(3))?;
    Ok(list.depth())
}

fn a_document(rt: &HostRuntime) -> Result<Value> {
    let alloc = rt.alloc();
    let sizes = eco_vec![in alloc; Value::Number(1), Value::Number(2)]?;
    let mut fields = Fields::new(alloc);
    fields.push(name(rt, "tags")?, Value::Text(name(rt, "a")?))?;
    fields.push(name(rt, "sizes")?, Value::from_items(sizes)?)?;
    Ok(Value::from_fields(fields)?)
}

fn name(rt: &HostRuntime, name: &str) -> Result<EcoString> {
    Ok(EcoString::from_str(rt.alloc(), name)?)
}

fn lay_over_settings(rt: &HostRuntime) -> Result<()> {
    let mut settings = Value::from_fields(numbers(rt, &[("color", 1), ("size", 2)])?)?;
    let before = settings.clone()?;
    layers::merge(
        &mut settings,
        &numbers(rt, &[("color", 3), ("font", 4), ("color", 5)])?,
    )?;
    print_settings(rt, "below", &before)?;
    print_settings(rt, "merged", &settings)
}

fn numbers(rt: &HostRuntime, pairs: &[(&str, i64)]) -> Result<Fields<Value>> {
    let mut fields = Fields::new(rt.alloc());
    for (word, number) in pairs {
        fields.push(name(rt, word)?, Value::Number(*number))?;
    }
    Ok(fields)
}

fn print_settings(rt: &HostRuntime, word: &str, settings: &Value) -> Result<()> {
    let [color, size, font] = ["color", "size", "font"].map(|name| number_of(settings, name));
    println!(rt; "{word}: color {color:?}, size {size:?}, font {font:?}")?;
    Ok(())
}

fn number_of(settings: &Value, name: &str) -> Option<i64> {
    settings.field(name).ok()?.number()
}

fn write_in_place(rt: &HostRuntime) -> Result<()> {
    let mut list = eco_vec![in rt.alloc(); 30u64, 10, 20]?;
    let kept = list.clone()?;
    writing::sort(&mut list)?;
    if !list.is_empty() && list[0] < u64::MAX {
        writing::count_up(&mut list, 0)?;
    }
    println!(rt; "sorted and counted up: {list:?}, before: {kept:?}")?;
    Ok(())
}

fn go_back(rt: &HostRuntime) -> Result<()> {
    let mut versions = Versions::new(rt.alloc(), 1u64);
    versions.set(2)?;
    let undone = versions.undo()?;
    println!(rt; "went back: {undone}, to {}", versions.present())?;
    Ok(())
}

fn edit_a_long_text(rt: &HostRuntime) -> Result<()> {
    let mut text = Versions::new(rt.alloc(), EcoTree::new(rt.alloc()));
    for _ in 0..300 {
        let end = text.present().len();
        history::insert(&mut text, end, name(rt, "a line")?)?;
    }
    edit_a_line(rt, &mut text, 150)?;
    remove_a_line(rt, &mut text)
}

fn edit_a_line(
    rt: &HostRuntime,
    text: &mut Versions<EcoTree<EcoString>>,
    index: usize,
) -> Result<()> {
    if index >= text.present().len() {
        return Ok(());
    }
    let undone = history::edit_and_undo(text, index, name(rt, "another line")?)?;
    let before = text.present().clone()?;
    let redone = text.redo()?;
    println!(rt; "undone: {undone}, line {index}: {:?}", before.get(index))?;
    println!(rt;
        "made again: {redone}, line {index}: {:?}",
        text.present().get(index)
    )?;
    Ok(())
}

fn remove_a_line(rt: &HostRuntime, text: &mut Versions<EcoTree<EcoString>>) -> Result<()> {
    let before = text.present().clone()?;
    if !before.is_empty() {
        history::remove(text, 0)?;
    }
    println!(rt; "lines: {}, before: {}", text.present().len(), before.len())?;
    Ok(())
}

fn compare_keys(rt: &HostRuntime) -> Result<()> {
    let mut spilled = EcoString::with_capacity(rt.alloc(), 40)?;
    spilled.push_str("key")?;
    let same = keys::are_same(&spilled, &name(rt, "key")?);
    println!(rt; "keys: {same}, {}", keys::spells(&spilled, "key"))?;
    Ok(())
}

fn append_to_lines(rt: &HostRuntime) -> Result<()> {
    let mut lines = EcoVec::new(rt.alloc());
    lines::append(&mut lines, String::from_str(rt.alloc(), "a first line")?)?;
    let before = lines.clone()?;
    lines::append(&mut lines, String::from_str(rt.alloc(), "a second")?)?;
    println!(rt; "lines: {lines:?}, before: {before:?}")?;
    Ok(())
}

fn collect_items(rt: &HostRuntime) -> Result<()> {
    let alloc = rt.alloc();
    let numbers: EcoVec<u64> = (1..=3u64).map(|n| n.saturating_mul(n)).collect(alloc)?;
    let bytes: EcoBytes = [1u8, 2].into_iter().collect(alloc)?;
    println!(rt; "collected: {numbers:?}, {bytes:?}")?;
    Ok(())
}

fn collect_texts(rt: &HostRuntime) -> Result<()> {
    let words: EcoString = ["one ", "two"].into_iter().collect(rt.alloc())?;
    println!(rt; "collected: {words}, {}", letters_twice(rt)?)?;
    Ok(())
}

fn letters_twice(rt: &HostRuntime) -> Result<EcoString> {
    let letters: EcoString = "a b".chars().filter(|c| *c != ' ').collect(rt.alloc())?;
    Ok([letters.clone()?, letters].into_iter().collect(rt.alloc())?)
}
