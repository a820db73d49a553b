ghost use Rattle.std.specs.Prelude.{◌≡◌, ◌↔◌, ℕ, List, Ok, Err};
ghost use Rattle.vk_spec.specs.Conditions.{Condition};
ghost use Rattle.vk_expr.specs.declared.faults.ExprFault.{ExprFault};
ghost use Rattle.vk_expr.specs.Grammar.{Reads};
ghost use Rattle.vk_expr.specs.Reading.{reading_of};
ghost use Rattle.vk_expr.specs.Printing.{printed};
ghost use Rattle.vk_expr.specs.Standing.{IsFirstFault};

/// The grammar gives a text one expression at most.
pub fn one_reading()
    ensures { (text : List ℕ) (one other : Condition) → Reads text one → Reads text other
        → one ≡ other }
{}

/// A text reads as an expression exactly where the grammar gives it that expression; where it has a
/// first fault, the grammar gives it none.
pub fn reading_or_fault()
    ensures reading { (text : List ℕ) (t : Condition) → (reading_of text ≡ Ok t) ↔ Reads text t }
    ensures fault { (text : List ℕ) (f : ExprFault) (t : Condition) → reading_of text ≡ Err f
        → Reads text t → ⊥ }
{}

/// A text is read as a fault exactly where that is its first fault, and it has one first fault at
/// most. The first fault stands at the first token such that no readable text begins with the
/// tokens up to it, or at the end where a readable text begins with all tokens.
pub fn fault_place()
    ensures place { (text : List ℕ) (f : ExprFault)
        → (reading_of text ≡ Err f) ↔ IsFirstFault text f }
    ensures one { (text : List ℕ) (f g : ExprFault) → IsFirstFault text f → IsFirstFault text g
        → f ≡ g }
{}

/// What was read and is printed reads as the same expression.
pub fn print_again()
    ensures { (text : List ℕ) (t : Condition) → reading_of text ≡ Ok t
        → reading_of (printed t) ≡ Ok t }
{}
