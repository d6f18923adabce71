//! A line of a page of help.

/// Lines of a page of help in three parts: the text before the words that a law speaks of, these words (an example, or
/// how a note begins), and the text after them. It is no struct, since a definition can't name a constant that has a
/// struct with a text in it.
pub type PageLine = (&'static str, &'static str, &'static str);
