// A change of a plan, as its maker hands it in.
use plan::Window;

/// What is to be done: the project's rules name this form.
#[derive(Clone, Copy, Debug, PartialEq, Eq)]
pub enum Edit {
    /// Add this window.
    Add(Window),
    /// Withdraw the window at this position.
    Withdraw(usize),
}

#[derive(Clone, Copy, Debug, PartialEq, Eq)]
pub struct Change {
    /// The new plan number.
    pub plan: u16,
    pub edit: Edit,
}
