//! What holds of all files.

ghost use Rattle.std.specs.Prelude.{◌≡◌, true};
ghost use Rattle.chor_tree.specs.declared.file.File.{File};
ghost use Rattle.chor_tree.specs.Same.{same_files};

/// To say the same is an equivalence of files.
pub fn same_is_an_equivalence()
    ensures reflexive { (f : File) → same_files f f ≡ true }
    ensures symmetric { (f g : File) → same_files f g ≡ true → same_files g f ≡ true }
    ensures transitive { (f g e : File) → same_files f g ≡ true → same_files g e ≡ true → same_files f e ≡ true }
{}
