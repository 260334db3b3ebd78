//! Paths of files and directories.

ghost use Rattle.std.specs.Prelude.{◌≡◌};
ghost use Rattle.std.specs.List.{list_all};
ghost use Rattle.sudo_words.specs.Word as word;

use crate::word::{Form, Word};

pub(crate) fn is_path_byte(b: u8) -> bool
    ensures { result ≡ word.is_path_byte b }
{
    b.is_ascii_alphanumeric() || b == b'.' || b == b'_' || b == b'+' || b == b'-'
}

fn all_path_bytes(text: &[u8]) -> bool
    ensures { result ≡ list_all word.is_path_byte text.now }
{
    text.iter().all(|b| is_path_byte(*b))
}

fn is_dots(part: &[u8]) -> bool
    ensures { result ≡ word.is_dots part.now }
{
    part == b".".as_slice() || part == b"..".as_slice()
}

/// Whether the bytes are a component: one or more path bytes, but not `.` or `..`.
pub(crate) fn is_component(part: &[u8]) -> bool
    ensures { result ≡ word.is_component part.now }
{
    1 <= part.len() && all_path_bytes(part) && !is_dots(part)
}

fn are_components(text: &[u8]) -> bool
    ensures { result ≡ word.are_components text.now }
{
    text.split(|b| *b == b'/').all(|part| is_component(part))
}

fn is_absolute(text: &[u8]) -> bool
    ensures { result ≡ word.is_absolute text.now }
{
    match text {
        [b'/', rest @ ..] => are_components(rest),
        _ => false,
    }
}

/// The form of a file's path: components with a slash before each, up to 4,096 bytes.
#[derive(Clone, Copy, Debug)]
pub struct FileForm;

impl Form for FileForm {
    ghost has = { word.is_file_path };

    fn test(text: &[u8]) -> bool {
        is_absolute(text) && text.len() <= 4096
    }
}

/// The path of a file.
pub type FilePath = Word<FileForm>;

/// The form of a directory's path: a file's path and one more slash, up to 4,096 bytes.
#[derive(Clone, Copy, Debug)]
pub struct DirForm;

impl Form for DirForm {
    ghost has = { word.is_dir_path };

    fn test(text: &[u8]) -> bool {
        match text {
            [front @ .., b'/'] => is_absolute(front) && text.len() <= 4096,
            _ => false,
        }
    }
}

/// The path of a directory, which ends in a slash.
pub type DirPath = Word<DirForm>;
