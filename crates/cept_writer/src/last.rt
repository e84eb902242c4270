use cept_codes::Form;

/// What is kept of the pattern that was put last: its form, and the code after its own.
#[derive(Clone, Copy)]
pub struct LastPattern {
    pub form: Form,
    pub next: u8,
}
