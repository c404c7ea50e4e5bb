//! A section or a part of a draft: its title and its text.

/// A title, and the text under it.
#[derive(Clone, Copy)]
pub struct Part<'a> {
    pub title: &'a str,
    pub text: &'a str,
}
