//! Where the keys of a TOML text stand.

/// A key: its first part, where it stands, and where each item of its array begins, if its value is one.
#[derive(Drop)]
pub struct Entry {
    pub name: String,
    pub at: usize,
    pub items: Vec<usize>,
}

/// One table of an array of tables: where it begins, and its keys.
#[derive(Drop)]
pub struct Section {
    pub at: usize,
    pub entries: Vec<Entry>,
}

/// The keys of a document, and the tables of one of its arrays of tables. All places are counted in octets from 0.
#[derive(Drop)]
pub struct Layout {
    pub entries: Vec<Entry>,
    pub sections: Vec<Section>,
}

impl Layout {
    /// The first key of this name in the document.
    pub fn entry(&self, name: &str) -> Option<&Entry> {
        entry_of(self.entries.as_slice(), name)
    }
}

impl Section {
    /// The first key of this name in the table.
    pub fn entry(&self, name: &str) -> Option<&Entry> {
        entry_of(self.entries.as_slice(), name)
    }
}

fn entry_of<'a>(entries: &'a [Entry], name: &str) -> Option<&'a Entry> {
    for entry in entries {
        if entry.name.as_str() == name {
            return Some(entry);
        }
    }
    None
}
