/// One of undo and redo.
#[derive(Clone, Copy, PartialEq, Eq, Debug)]
pub enum UndoRedo {
    /// It undoes the last kept edit.
    Undo,
    /// It redoes the last undone edit.
    Redo,
}
