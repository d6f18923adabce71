//! A row that is a clean drawing of a word says this word, with noise too.
//!
//! A drawing has a start, cells of one width and two levels, all as they come, and each pixel is the mean of
//! what it covers, but for some noise: rounding is noise of half a level. A row of it is read at the place where its
//! light falls, by the core of each cell, its middle six eighths; and places are whole sixteenths of a pixel. So three
//! things blur the cells: the edges, which are found in whole pixels, the pixels at the ends of a core, which the
//! neighbour covers in part, and the noise. The margin says that the swing outweighs them.
//!
//! What this crate promises, all of it by laws:
//! - A clean drawing is read, whatever its word is: in a row of 720 pixels or more, wherever it begins, however wide
//!   its cells are within 5 percent, at any two levels that are 12 or more apart, with noise up to a 22nd of the swing
//!   (`specs/Clean.antt`, `IsClean`; `laws::a_clean_drawing_is_read`). The row carries code and says the word and
//!   nothing else, and a field has its line if it is one of the first 20 rows that are looked at.
//! - A row whose pixels are rounded is drawn, with noise of half a level (`specs/Drawing.antt`, `FitsARow`,
//!   `rounded` and `IsDrawn`), and there is one (`specs/Worked.antt`).
//! - A row that is drawn, of any width and with more noise, says the word of the drawing where the cores of the place
//!   lie in the cells of the drawing and the drawing has its margin there (`specs/Inside.antt`, `LiesInside` and
//!   `HasMargin`); so does a field (`a_field_has_the_line_of_a_clean_drawing`).
//! - Where cores are 85 sixteenths of a pixel or longer, as they are in rows of 720 pixels or more, noise
//!   of a twentieth of the swing leaves a margin, and rounding if the levels are 5 apart.
//! - Where both ends of the place lie within a twelfth of a cell of where they were drawn, all cores lie in their
//!   cells (`specs/Near.antt`, `IsNear`).
//!
//! Read `specs/Drawing.antt`, `Clean`, `Inside`, `Near` and `Worked`, in this order, and `laws` beside them. Nothing
//! here runs.
#![tactic(auto)]

pub mod laws;
