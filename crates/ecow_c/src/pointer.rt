//! The pointers to values that C keeps. C passes the address of each pointer, which may be null.
//! The structs of `include/ecow.h` have the size of the values.
ghost use Rattle.std.specs.Borrow.{sem};
ghost use Rattle.std.specs.Coded.{coded_option};
ghost use Rattle.std.specs.Option.{option_map};
ghost use Rattle.std.specs.Prelude.{◌≡◌, ℕ, ℤ, List, Option};
ghost use Rattle.ecow_base.specs.declared.plain.PlainBytes.{PlainBytes};
ghost use Rattle.ecow_base.specs.declared.plain.PlainText.{PlainText};
ghost use Rattle.ecow_nested.specs.declared.value.Value.{Value};
ghost use Rattle.ecow_c.specs.Pointers.{pointer_owns};
ghost use Rattle.ecow_c.specs.Rows.{list_row, array_row, bytes_row, text_row, texts_row, value_row};

use ecow_bytes::EcoBytes;
use ecow_list::EcoVec;
use ecow_nested::Value;
use ecow_string::EcoString;
use std::marker::Model;
use std::mem::size_of;

const _: () = prove!(size_of::<EcoVec<i64>>() == 8);

/// A pointer to an `EcoVec<i64>`, the struct `ecow_list` of the header.
#[repr(C)]
pub struct ListPointer {
    at: *mut u8,
    pub ghost value: { Option (List ℤ) } by { coded_option list_row.coded },
}

impl Model for ListPointer {
    ghost also_owns = { λ pointer. pointer_owns list_row pointer.at pointer.value };
}

impl ListPointer {
    ghost use Rattle.ecow_c.specs.Lends.{lends_list};

    /// The list, unless the pointer is null.
    pub fn list(&mut self) -> Option<&mut EcoVec<i64>>
        ensures* writes_back { sem 𝓛 (lends_list self.entry result) }
        ensures value { option_map (λ list. list.now) result ≡ self.old.value }
    {
        if self.at.is_null() {
            return None;
        }
        Some(unsafe { &mut *(self.at as *mut EcoVec<i64>) })
    }
}

const _: () = prove!(size_of::<EcoVec<u8>>() == 8);

/// A pointer to an `EcoVec<u8>`, the struct `ecow_array` of the header.
#[repr(C)]
pub struct ArrayPointer {
    at: *mut u8,
    pub ghost value: { Option (List ℕ) } by { coded_option array_row.coded },
}

impl Model for ArrayPointer {
    ghost also_owns = { λ pointer. pointer_owns array_row pointer.at pointer.value };
}

impl ArrayPointer {
    ghost use Rattle.ecow_c.specs.Lends.{lends_array};

    /// The bytes of the items, unless the pointer is null.
    pub fn array(&mut self) -> Option<&mut EcoVec<u8>>
        ensures* writes_back { sem 𝓛 (lends_array self.entry result) }
        ensures value { option_map (λ array. array.now) result ≡ self.old.value }
    {
        if self.at.is_null() {
            return None;
        }
        Some(unsafe { &mut *(self.at as *mut EcoVec<u8>) })
    }
}

const _: () = prove!(size_of::<EcoBytes>() == 16);

/// A pointer to an `EcoBytes`, the struct `ecow_bytes` of the header.
#[repr(C)]
pub struct BytesPointer {
    at: *mut u8,
    pub ghost value: { Option PlainBytes } by { coded_option bytes_row.coded },
}

impl Model for BytesPointer {
    ghost also_owns = { λ pointer. pointer_owns bytes_row pointer.at pointer.value };
}

impl BytesPointer {
    ghost use Rattle.ecow_c.specs.Lends.{lends_bytes};

    /// The bytes, unless the pointer is null.
    pub fn bytes(&mut self) -> Option<&mut EcoBytes>
        ensures* writes_back { sem 𝓛 (lends_bytes self.entry result) }
        ensures value { option_map (λ bytes. bytes.now) result ≡ self.old.value }
    {
        if self.at.is_null() {
            return None;
        }
        Some(unsafe { &mut *(self.at as *mut EcoBytes) })
    }
}

const _: () = prove!(size_of::<EcoString>() == 16);

/// A pointer to an `EcoString`, the struct `ecow_text` of the header.
#[repr(C)]
pub struct TextPointer {
    at: *mut u8,
    pub ghost value: { Option PlainText } by { coded_option text_row.coded },
}

impl Model for TextPointer {
    ghost also_owns = { λ pointer. pointer_owns text_row pointer.at pointer.value };
}

impl TextPointer {
    ghost use Rattle.ecow_c.specs.Lends.{lends_text};

    /// The text, unless the pointer is null.
    pub fn text(&mut self) -> Option<&mut EcoString>
        ensures* writes_back { sem 𝓛 (lends_text self.entry result) }
        ensures value { option_map (λ text. text.now) result ≡ self.old.value }
    {
        if self.at.is_null() {
            return None;
        }
        Some(unsafe { &mut *(self.at as *mut EcoString) })
    }
}

const _: () = prove!(size_of::<EcoVec<EcoString>>() == 8);

/// A pointer to an `EcoVec<EcoString>`, the struct `ecow_texts` of the header.
#[repr(C)]
pub struct TextsPointer {
    at: *mut u8,
    pub ghost value: { Option (List PlainText) } by { coded_option texts_row.coded },
}

impl Model for TextsPointer {
    ghost also_owns = { λ pointer. pointer_owns texts_row pointer.at pointer.value };
}

impl TextsPointer {
    ghost use Rattle.ecow_c.specs.Lends.{lends_texts};

    /// The list of texts, unless the pointer is null.
    pub fn texts(&mut self) -> Option<&mut EcoVec<EcoString>>
        ensures* writes_back { sem 𝓛 (lends_texts self.entry result) }
        ensures value { option_map (λ texts. texts.now) result ≡ self.old.value }
    {
        if self.at.is_null() {
            return None;
        }
        Some(unsafe { &mut *(self.at as *mut EcoVec<EcoString>) })
    }
}

const _: () = prove!(size_of::<Value>() == 24);

/// A pointer to a `Value`, the struct `ecow_value` of the header.
#[repr(C)]
pub struct ValuePointer {
    at: *mut u8,
    pub ghost value: { Option Value } by { coded_option value_row.coded },
}

impl Model for ValuePointer {
    ghost also_owns = { λ pointer. pointer_owns value_row pointer.at pointer.value };
}

impl ValuePointer {
    ghost use Rattle.ecow_c.specs.Lends.{lends_value};

    /// The value, unless the pointer is null.
    pub fn value(&mut self) -> Option<&mut Value>
        ensures* writes_back { sem 𝓛 (lends_value self.entry result) }
        ensures value { option_map (λ value. value.now) result ≡ self.old.value }
    {
        if self.at.is_null() {
            return None;
        }
        Some(unsafe { &mut *(self.at as *mut Value) })
    }
}
