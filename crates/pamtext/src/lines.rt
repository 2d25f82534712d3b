//! The lines of a text.
ghost use Rattle.std.specs.Prelude.{◌≡◌};
ghost use Rattle.pamtext.specs.Lines.{trimmed, passed};

/// The line without the white space at both ends.
pub(crate) fn trimmed_line(line: &str) -> &str
    ensures value { result.now ≡ trimmed line.now }
{
    line.trim_ascii()
}

/// Whether a trimmed line has nothing to read: it is empty, or a remark.
pub(crate) fn passed_over(line: &str) -> bool
    ensures value { result ≡ passed line.now }
{
    line.is_empty() || line.starts_with('#')
}
