// Laws of inputs, as contracts of functions that do nothing.
ghost use Rattle.std.specs.Prelude.{◌≡◌, ℕ, List, Some};
ghost use Rattle.pisa_loader.specs.InputLines.{entry_in, Entry, entry};
ghost use Rattle.pisa_loader.specs.InputGrammar.{Sets};

/// What is read from a line that sets a field is what the form of such lines says, and each line of
/// that form is read so.
pub fn lines_have_one_form()
    ensures found { (line : List ℕ) (e : Entry) → entry_in line ≡ Some e → Sets line e.name e.word }
    ensures only { (line name : List ℕ) (word : ℕ) → Sets line name word
        → entry_in line ≡ Some (entry name word) }
{}
