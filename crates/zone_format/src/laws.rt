//! Laws of forms. Each function's contract is the law; calling it does nothing.
ghost use Rattle.std.specs.Prelude.{◌≡◌, ◌∷◌, ◌++◌, ℕ, List, [], false};
ghost use Rattle.zone_format.specs.Form.{below, Before, form, forms, gap, is_blank_line, line_form};
ghost use Rattle.zone_format.specs.declared.line_state.Above.{Above};
ghost use Rattle.zone_format.specs.Formats.{Formats};
ghost use Rattle.zone_format.specs.Marks.{HasMarks, Mark};
ghost use Rattle.zone_format.specs.Squeezed.{squeezed};

/// The form of a text has the text's marks, except blank lines: the same tokens as they are
/// spelled, adjacent or separated as they were, the same comments except for blanks at their end,
/// the same parentheses, line ends and blanks at the beginning of entries, all in the same order.
pub fn forms_keep_the_marks()
    ensures { (octets : List ℕ) (ms : List Mark) → HasMarks octets ms
        → HasMarks (form ms) (squeezed ms) }
{}

/// Formatting is idempotent.
pub fn forms_stay()
    ensures { (octets f : List ℕ) → Formats octets [] f → Formats f [] f }
{}

/// Texts with the same marks, whatever blanks separate them, have the same form.
pub fn same_marks_have_one_form()
    ensures { (octets other : List ℕ) (ms : List Mark) (f g : List ℕ) → HasMarks octets ms
        → HasMarks other ms → Formats octets [] f → Formats other [] g → f ≡ g }
{}

/// The form of lines is the form of the first line followed by that of the others. A line's form
/// depends on that line alone, on the number of open parentheses before it, and on the column of
/// the comment of the line directly above.
pub fn lines_are_independent()
    ensures { (above : Above) (b : Before) (l : List Mark) (ls : List (List Mark))
        → is_blank_line l ≡ false
        → forms above b (l ∷ ls) ≡ gap 10 above ++ (line_form b l ++ 10 ∷ forms Above.Line (below b l) ls) }
{}
