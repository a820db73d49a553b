//! Laws over the definitions alone.
ghost use Rattle.std.specs.Prelude.{◌≡◌, List, ℕ};
ghost use Rattle.vk_abi_text.specs.Inputs.{Input};
ghost use Rattle.vk_abi_text.specs.Lines.{abi_text_of};
ghost use Rattle.vk_abi_text.specs.Readings.{Ends, IsInput, IsRead, IsRefusedAt, Reading, ordered};
ghost use Rattle.vk_abi_text.specs.Rights.{IsReadable, IsRightInput};
ghost use Rattle.vk_abi_text.specs.Same.{TextsTellInputs};

/// Right inputs with one text are one build: they differ at most in the order of their lists.
pub fn texts_tell_inputs()
    ensures { TextsTellInputs }
{}

/// Bytes that are read as an input are its text, so what is read is written again as the same
/// bytes; and they are read as one input only.
pub fn what_is_read_is_the_text()
    ensures text { (bytes : List ℕ) (i : Input) → IsRead bytes i → bytes ≡ abi_text_of i }
    ensures one { (bytes : List ℕ) (i j : Input) → IsRead bytes i → IsRead bytes j → i ≡ j }
{}

/// The text of a right input whose paths are short is read as that input, its lists in the order
/// of their lines.
/// Nothing else is answered for it, unless memory runs out.
pub fn a_text_is_read_as_its_input()
    ensures read { (i : Input) → IsRightInput i → IsReadable i
        → IsRead (abi_text_of i) (ordered i) }
    ensures answer { (i : Input) → IsRightInput i → IsReadable i → (answer : Reading)
        → Ends (abi_text_of i) answer → IsInput (ordered i) answer }
{}

/// No line of a text that is read is refused.
pub fn a_text_is_read_or_refused()
    ensures { (bytes : List ℕ) (i : Input) (n : ℕ) → IsRead bytes i → IsRefusedAt bytes n → ⊥ }
{}
