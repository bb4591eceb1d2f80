//! The names of partitions and tasks.
ghost use Rattle.std.specs.Prelude.{◌≡◌};
ghost use Rattle.tables.specs.Kinds.{good_name};

/// Whether a name has a byte at least, and each from 33 to 126.
pub fn is_good_name(name: &[u8]) -> bool
    ensures { result ≡ good_name name.now }
{
    !name.is_empty() && name.iter().all(u8::is_ascii_graphic)
}
