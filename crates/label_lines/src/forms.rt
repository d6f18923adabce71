//! The forms that a line may have, and how far it fits one. Read next: `line`.
ghost use Rattle.std.specs.Prelude.{◌≡◌, ◌≤◌, ◌∷◌, length, map};
ghost use Rattle.label_lines.specs.Forms.{fitting, fitting_one, forms, label_form, may_stand};

use tc_address::Count;

/// The form of a label. A 0 is any digit.
pub const LABEL_FORM: &str = "00:00:00:00";

/// The form of a label of drop-frame counting.
pub const DROP_FORM: &str = "00:00:00;00";

/// The forms of a number of the day, and of seconds with three decimals. A line may end early in the first of them.
pub const FORMS: [&str; 6] = [
    "0000000",
    "0.000",
    "00.000",
    "000.000",
    "0000.000",
    "00000.000",
];

/// The form of the labels of a count.
pub(crate) fn label_form(count: Count) -> &'static str
    ensures { result.now ≡ label_form count }
{
    match count {
        Count::Drop30 => DROP_FORM,
        _ => LABEL_FORM,
    }
}

/// Whether a byte may come at this place of a form.
fn may_stand(place: u8, byte: u8) -> bool
    ensures { result ≡ may_stand place byte }
{
    if place == b'0' {
        byte.is_ascii_digit()
    } else {
        byte == place
    }
}

/// How many bytes of a line fit a form, from the first on.
pub(crate) fn fitting(form: &[u8], line: &[u8]) -> usize
    ensures count { result ≡ fitting form.now line.now }
    ensures most { result ≤ length line.now }
{
    let mut at = 0;
    'bytes: while at < form.len() && at < line.len() && may_stand(form[at], line[at]) {
        at += 1;
    }
    at
}

/// How many bytes of a line fit the form of a label or one of the others, at most.
#[tactic(auto, unfolding(crate::specs::Forms::fitting_one))]
pub(crate) fn fitting_one(count: Count, line: &[u8]) -> usize
    ensures count { result ≡ fitting_one (label_form count ∷ forms) line.now }
    ensures most { result ≤ length line.now }
{
    fitting(label_form(count).as_bytes(), line).max(fitting_of(&FORMS, line))
}

/// How many fit one of these forms, at most.
#[tactic(auto, unfolding(crate::specs::Forms::fitting_one))]
fn fitting_of(forms: &[&str], line: &[u8]) -> usize
    ensures count { result ≡ fitting_one (map (λ form. form.now) forms.now) line.now }
    ensures most { result ≤ length line.now }
{
    match forms {
        [] => 0,
        [form, others @ ..] => fitting(form.as_bytes(), line).max(fitting_of(others, line)),
    }
}
