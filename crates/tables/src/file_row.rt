//! A row as parts of the file.
ghost use Rattle.std.specs.Prelude.{◌≡◌};
ghost use Rattle.std.specs.Option.{option_map};
ghost use Rattle.tables.specs.Handed.{fixed_of, name_in, offset_of};

/// A row as it stands in the file: its offset, its fixed part and its name. A link has no name.
// the cases hold their parts themselves: a link has no name, and none is made up for it
#[derive(Clone, Copy)]
pub enum FileRow<'a> {
    Partition {
        at: usize,
        fixed: &'a [u8],
        name: &'a [u8],
    },
    Task {
        at: usize,
        fixed: &'a [u8],
        name: &'a [u8],
    },
    Link {
        at: usize,
        fixed: &'a [u8],
    },
}

impl<'a> FileRow<'a> {
    /// Where the row begins in the file.
    pub fn offset(&self) -> usize
        ensures { result ≡ offset_of self.now }
    {
        match self {
            FileRow::Partition { at, .. } | FileRow::Task { at, .. } | FileRow::Link { at, .. } =>
                *at,
        }
    }

    /// The row without its name.
    pub fn fixed(&self) -> &'a [u8]
        ensures { result.now ≡ fixed_of self.now }
    {
        match self {
            FileRow::Partition { fixed, .. }
            | FileRow::Task { fixed, .. }
            | FileRow::Link { fixed, .. } => fixed,
        }
    }

    /// The name of the row, where its kind has one.
    pub fn name(&self) -> Option<&'a [u8]>
        ensures { option_map (λ x. x.now) result ≡ name_in self.now }
    {
        match self {
            FileRow::Partition { name, .. } | FileRow::Task { name, .. } => Some(name),
            FileRow::Link { .. } => None,
        }
    }
}
