// The entries of one phase that the states of a window's seconds make, by the rules of document 01, and what holds of
// them: definitions and theorems over any list of states and any exact answers. The code is `contacts`.

// Enter, leave, graze and open are the paper's words. An enter and a leave are contacts; a graze and an open claim
// none. from, to: seconds of the window, 0 to its length less 1.
#[derive(Clone, Copy)]
pub enum Entry {
    // two sure seconds, from < to
    Enter { from: usize, to: usize },
    Leave { from: usize, to: usize },
    Graze { from: usize, to: usize },
    // an end of the window and the nearest sure second, or both ends, from <= to
    Open { from: usize, to: usize },
}
