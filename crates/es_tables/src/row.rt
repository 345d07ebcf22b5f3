/// A text and what it stands for.
#[derive(Clone, Copy)]
pub struct Row {
    pub text: &'static str,
    pub code: u16,
}

/// An array of rows, each as its text and its code.
macro_rules! rows {
    ($($text:literal => $code:literal),* $(,)?) => {
        [$(Row { text: $text, code: $code }),*]
    };
}

pub(crate) use rows;
