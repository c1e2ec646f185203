ghost use Rattle.std.specs.Prelude.{◌≡◌, ◌==◌, ◌∷◌, ◌++◌, [], length, OnOk, OnErr};

use crate::PackedLines;
use std::alloc::{AllocError, Global};
use std::marker::Model;
use tree_rows::MAX_ATTRIBUTES;
use xs_lists::Listed;
use xs_names::Text;

/// An attribute line, with the name and the value as they are written.
#[derive(Drop)]
pub struct AttributeLine {
    pub name: Text,
    pub value: Text,
}

/// Lines as they are kept.
pub(crate) enum KeptLines {
    /// So many as an element may have. They share the texts that came.
    Few(Listed<AttributeLine>),
    /// More than an element may have.
    Many(PackedLines),
}

/// The attribute lines of a start tag, in order. Contracts see the list of the lines.
///
/// Of more lines than an element may have, nothing is wanted but why the tag is refused: they take little more memory than
/// their characters.
#[derive(Drop)]
pub struct AttributeLines {
    alloc: Global,
    kept: KeptLines,
}

impl Model for AttributeLines {
    ghost use Rattle.std.specs.Prelude.{List};
    ghost use Rattle.tag_names.specs.declared.lines.AttributeLine.{AttributeLine};

    ghost Value = { List AttributeLine };

    ghost use Rattle.tag_names.specs.Kept.{lines_of};

    ghost view = { λ lines. lines_of lines.kept };
}

impl AttributeLines {
    ghost use Rattle.tag_names.specs.Kept.{lines_of};

    /// No lines.
    pub fn new(alloc: Global) -> Self
        ensures { result ≡ [] }
    {
        AttributeLines {
            alloc,
            kept: KeptLines::Few(Listed::new(alloc)),
        }
    }

    /// Puts a line at the end. Where memory is wanting, the line is dropped and the list stays.
    pub fn push(&mut self, line: AttributeLine) -> Result<(), AllocError>
        ensures ok { OnOk result (self.new ≡ self.old ++ line ∷ []) }
        ensures err { OnErr result (self.new ≡ self.old) }
    {
        match &mut self.kept {
            KeptLines::Few(lines) => {
                if lines.len() < MAX_ATTRIBUTES {
                    return lines.push(line);
                }
                let mut packed = PackedLines::of_lines(self.alloc, lines.as_slice())?;
                packed.push(&line)?;
                self.kept = KeptLines::Many(packed);
                Ok(())
            }
            KeptLines::Many(packed) => packed.push(&line),
        }
    }

    /// The number of lines.
    pub fn len(&self) -> usize
        ensures { result ≡ length self.now }
    {
        match &self.kept {
            KeptLines::Few(lines) => lines.len(),
            KeptLines::Many(packed) => packed.len(),
        }
    }

    /// The lines as they are kept.
    pub(crate) fn kept(&self) -> &KeptLines
        ensures { lines_of result.now ≡ self.now }
    {
        &self.kept
    }
}

/// A start line with its attribute lines, as they are written.
pub struct Tag {
    pub name: Text,
    pub attributes: AttributeLines,
}

impl Drop for KeptLines {
    fn drop(self) {
        match self {
            KeptLines::Few(few) => drop(few),
            KeptLines::Many(many) => drop(many),
        }
    }
}

impl Drop for Tag {
    fn drop(self) {
        let Tag { name, attributes } = self;
        drop(name);
        drop(attributes);
    }
}
