//! The names of the generated file.

ghost use Rattle.std.specs.Prelude.{◌≡◌, ◌<◌, ◌≤◌, IfOk, OnOk, length, true};
ghost use Rattle.chor_base.specs.Words.{AllDistinct};
ghost use Rattle.chor_gen.specs.Words.{generated_names, declared_words, used_words, procedure_word, named_in};
ghost use Rattle.chor_tree.specs.Kept.{has_name};
ghost use Rattle.chor_gen.specs.Making.{tabled};

use chor_base::{Memory, NameId, Names, Place};
use chor_tree::Named;
use std::alloc::Global;

// Adds the words of the protocols and services.
fn intern_declared(names: &mut Names) -> Result<(), Memory>
    ensures { OnOk result (names.new ≡ tabled names.old declared_words) }
{
    names.intern(b"Round")?;
    names.intern(b"A")?;
    names.intern(b"B")?;
    names.intern(b"C")?;
    names.intern(b"s")?;
    names.intern(b"t")?;
    names.intern(b"u")?;
    names.intern(b"v")?;
    names.intern(b"Fork")?;
    names.intern(b"more")?;
    names.intern(b"less")?;
    names.intern(b"a")?;
    names.intern(b"b")?;
    Ok(())
}

// Adds the words of the rounds.
fn intern_used(names: &mut Names) -> Result<(), Memory>
    ensures table { OnOk result (names.new ≡ tabled names.old used_words) }
    ensures distinct { OnOk result (AllDistinct names.new) }
    ensures some { OnOk result (0 < length names.new) }
{
    names.intern(b"p")?;
    names.intern(b"q")?;
    names.intern(b"k")?;
    names.intern(b"r")?;
    names.intern(b"x")?;
    names.intern(b"y")?;
    names.intern(b"z")?;
    Ok(())
}

// A table of names that has at least one.
#[derive(Drop)]
pub struct Words {
    pub names: Names,
    ghost distinct: { AllDistinct names },
    ghost some: { 0 < length names },
}

impl Words {
    // The names of the file with so many rounds.
    pub fn new(alloc: Global, count: u32) -> Result<Words, Memory>
        requires { count ≤ 4000 }
        ensures { IfOk result (λ words. words.names ≡ generated_names count) }
    {
        let mut names = Names::new(alloc);
        intern_declared(&mut names)?;
        intern_used(&mut names)?;
        for number in 0..count {
            let word = format!(in alloc; "F{}", number + 1)?;
            names.intern(word.as_bytes())?;
        }
        Ok(Words { names })
    }

    // The name with these bytes.
    pub fn at(&self, word: &[u8]) -> Named
        ensures named { result ≡ named_in self.now.names word.now }
        ensures there { has_name self.now.names result.name ≡ true }
    {
        let name = self.names.find(word).unwrap_or(NameId(0));
        let place = Place { line: 1, col: 1 };
        Named { name, place }
    }

    // The procedure with this number.
    pub fn procedure(&self, alloc: Global, number: u32) -> Result<Named, Memory>
        ensures named { IfOk result (λ name. name ≡ named_in self.now.names (procedure_word number)) }
        ensures there { IfOk result (λ name. has_name self.now.names name.name ≡ true) }
    {
        let word = format!(in alloc; "F{number}")?;
        Ok(self.at(word.as_bytes()))
    }
}
