//! The forms in which faults are told.

/// How a relay tells its fault lines.
#[derive(Clone, Copy, Debug, PartialEq, Eq)]
pub enum Faults {
    /// As they are, with the text of the line that is at fault, which may have newlines. They name no file.
    Raw,
    /// Each on one line, with Rust's escapes for what ASCII does not print: `\n`, `\t`, `\r`, `\\`, and `\x..` for each other byte. Of
    /// a fault line of more than 200 bytes the first 200, and how many it has, as in `.. [1234 bytes]`. If `file` of the settings names
    /// the input, that name comes before the line, with the same escapes and whole, as in `a.lp: item 7: ..`.
    OneLine,
    /// Each as an object of JSON on one line, as `{"item":2,"line":7,"offset":31,"piece_line":7,"piece_offset":29,"length":6,
    /// "kind":"field_set_missing","text":"No fields were provided","stop_line":7,"stop_column":5}`. It has the number of the item, the
    /// line of the input on which its text begins, and how many bytes come before that. Then it has the same two of its piece, which
    /// begins with the blanks and comments before the text, and how many bytes the piece has. The kind of its fault comes next, and what
    /// is wrong with it. If it is no line, the line and the column of the byte at which reading stopped follow; if it is not UTF-8, those
    /// of the byte at which it is not. Of a piece that is too long `longer_than` is told and no `length`: the limit, since its fault is
    /// told before its end has come. Of what is wrong, if that has more than 200 bytes, the characters that end within the first 200 are
    /// told, and how many it has, as in `.. [1234 bytes]`.
    ///
    /// Lines are counted from `first_line`, whatever `numbering` of the settings says, where 0 is taken as 1, and
    /// columns from 1. If `file` of the settings names the input, that is the first member, as in `{"file":"a.lp","item":2,"line":7,..`.
    ///
    /// If `has_piece` says so, the last member is the piece, whole, as in `"piece":" m f="`, or in base64 if it is not UTF-8, as
    /// `"piece_base64"`. Of a piece that is too long its first bytes are told, as many as the limit: `"piece_start"`, or
    /// `"piece_start_base64"`.
    Json { first_line: usize, has_piece: bool },
    /// Each on one line that editors go by, and what reads the messages of compilers: `a.lp:7:5: No fields were provided (at "NaN")`. It
    /// has the name of the file, a dash if `file` of the settings names none. The line and the column come then: those at which reading
    /// stopped, or at which the piece is not UTF-8, or else at which its text begins.
    ///
    /// Lines are counted from `first_line`, as with `Json`, and columns from 1, in characters. What is wrong has the escapes of `OneLine`, and
    /// is cut as there. What was found where reading stopped comes after it: the bytes of the line there, up to
    /// a space, a tab, a comma or a newline.
    Editor { first_line: usize },
}
