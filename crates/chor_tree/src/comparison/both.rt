//! Parts of two files that are compared.

ghost use Rattle.std.specs.Prelude.{◌≡◌, ◌&&◌};
ghost use Rattle.chor_base.specs.Writing.{name_in};
ghost use Rattle.chor_tree.specs.declared.file.File.{File};
ghost use Rattle.chor_tree.specs.Same.{Same, all_same, same_named, same_part};
ghost use Rattle.chor_tree.specs.Both.{words_of, texts_of};

use crate::file::{File, Named};
use crate::tree::Part;
use chor_base::{List, NameId, Names};

// What can be compared but for places and the numbers of words. All parts of a thing are compared,
// even where the first ones differ: each way out of a function has a proof of its own.
pub trait Say {
    ghost same: { File → File → Same Self };

    fn says(&self, other: &Self, left: &File, right: &File) -> bool
        ensures { result ≡ same left.now right.now self.now other.now };
}

impl<T: Say> Say for List<T> {
    ghost same = { λ f g. all_same (T.same f g) };

    fn says(&self, other: &Self, left: &File, right: &File) -> bool {
        let mut items = self.as_slice();
        let mut others = other.as_slice();
        while let Some((x, more)) = items.split_first() {
            let Some((y, rest)) = others.split_first() else {
                return false;
            };
            if !x.says(y, left, right) {
                return false;
            }
            items = more;
            others = rest;
        }
        others.is_empty()
    }
}

impl<A: Say, B: Say> Say for (A, B) {
    ghost same = { λ f g v w. A.same f g v.0 w.0 && B.same f g v.1 w.1 };

    fn says(&self, other: &Self, left: &File, right: &File) -> bool {
        self.0.says(&other.0, left, right) & self.1.says(&other.1, left, right)
    }
}

// Names are the same where their words are.
impl Say for NameId {
    ghost same = { λ f g. words_of f g };

    fn says(&self, other: &Self, left: &File, right: &File) -> bool {
        word_of(&left.names, *self) == word_of(&right.names, *other)
    }
}

impl Say for Named {
    ghost same = { λ f g. same_named (words_of f g) };

    fn says(&self, other: &Self, left: &File, right: &File) -> bool {
        self.name.says(&other.name, left, right)
    }
}

impl Say for Part {
    ghost same = { λ f g. same_part (words_of f g) };

    fn says(&self, other: &Self, left: &File, right: &File) -> bool {
        self.process.says(&other.process, left, right) & self.role.says(&other.role, left, right)
    }
}

// The bytes of a name. One that isn't in the table has none.
fn word_of(names: &Names, name: NameId) -> &[u8]
    ensures { result.now ≡ name_in names.now name }
{
    if (name.0 as usize) < names.len() {
        names.at(name)
    } else {
        &[]
    }
}

// Whether two texts have the same bytes, or neither is in its table.
pub fn same_texts(a: u32, b: u32, left: &File, right: &File) -> bool
    ensures { result ≡ texts_of left.now right.now a b }
{
    if (a as usize) >= left.texts.len() {
        return (b as usize) >= right.texts.len();
    }
    if (b as usize) >= right.texts.len() {
        return false;
    }
    left.texts.at(a) == right.texts.at(b)
}
