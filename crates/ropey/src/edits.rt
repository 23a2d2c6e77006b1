//! Edits of a rope: insert, remove, replace, split and append.
//!
//! Indices count characters, unless a name says bytes. The plain form of a call requires an index
//! or a range inside the text; the `try_` form returns an error exactly if it isn't. After an error
//! the rope is unchanged, its chunks too. An index may be between a CR and an LF, and a CR and an
//! LF that become adjacent are one line break. No edit changes another rope, not even a clone.
//!
//! An edit inside one chunk that leaves the chunk's ends as they are, and the chunk long enough,
//! copies the path to it, at most 19 nodes. Any other edit splits the tree and joins it again, in
//! `O(log n)`. Chunks that meet and fit into one are merged, and each chunk but the first and the
//! last keeps at least 462 bytes.

ghost use Rattle.std.specs.Prelude.{◌≡◌, ◌+◌, ◌-◌, ◌^◌, ◌<◌, ◌≤◌, ◌⊎◌, ◌↔◌, [], ◌∷◌, ◌++◌, length, take, drop, Err, OnOk, OnErr, IfOk, IfErr};
ghost use Rattle.std.specs.Char.{len_utf8};
ghost use Rattle.std.specs.Str.{chars, IsCharBoundary};
ghost use Rattle.str_indices.specs.Text.{byte_len};
ghost use Rattle.ropey_tree.specs.Cutting.{IsBoundaryOf};
ghost use Rattle.ropey_walk.specs.Ranges.{start_of, end_of, IsRangeIn, IsByteRangeIn};
ghost use Rattle.ropey_walk.specs.Ranges.{RefusesChars, RefusesBytes};
ghost use Rattle.ropey.specs.Chunks.{text_of};
ghost use Rattle.ropey.specs.Comparing.{text_bytes};
ghost use Rattle.ropey.specs.Edits.{with_inserted, with_removed, with_replaced, IsReplaced};

use crate::rope::{MAX_TEXT_BYTES, Rope};
use crate::trees::{halves_of, replaced};
use ropey_tree::error::Error;
use ropey_tree::seams;
use ropey_walk::ranges::TextRange;

impl Rope {
    /// Replaces the text between two byte indices, both at character boundaries.
    fn replace_between(&mut self, from: usize, to: usize, text: &str) -> Result<(), Error>
        requires order { from ≤ to }
        requires starts { IsBoundaryOf (text_of self.old) from }
        requires ends { IsBoundaryOf (text_of self.old) to }
        ensures text { OnOk result (IsReplaced (text_of self.old) from to (chars text.now)
            (text_of self.new)) }
        ensures kept { OnErr result (self.new ≡ self.old) }
        ensures size { (result ≡ Err Error.Size) ↔
            (2 ^ 63 ≤ byte_len (text_of self.old) - (to - from) + length text.now) }
        ensures refused { IfErr result (λ error. (error ≡ Error.Size) ⊎ (error ≡ Error.Memory)) }
    {
        let len = self.len_bytes();
        let kept = len - (to - from);
        if text.len() > MAX_TEXT_BYTES - kept {
            return Err(Error::Size);
        }
        if from == to && text.is_empty() {
            return Ok(());
        }
        let alloc = self.alloc;
        let root = replaced(alloc, &self.root, len, from, to, text)?;
        *self = Rope::of_tree(alloc, root);
        Ok(())
    }

    /// Inserts text at a byte index, which is a character boundary.
    fn insert_at(&mut self, byte_idx: usize, text: &str) -> Result<(), Error>
        requires { IsBoundaryOf (text_of self.old) byte_idx }
        ensures text { OnOk result (IsReplaced (text_of self.old) byte_idx byte_idx (chars text.now)
            (text_of self.new)) }
        ensures kept { OnErr result (self.new ≡ self.old) }
        ensures size { (result ≡ Err Error.Size) ↔
            (2 ^ 63 ≤ byte_len (text_of self.old) + length text.now) }
        ensures refused { IfErr result (λ error. (error ≡ Error.Size) ⊎ (error ≡ Error.Memory)) }
    {
        self.replace_between(byte_idx, byte_idx, text)
    }

    /// Inserts text before the character at `char_idx`, or at the end for `len_chars()`.
    ///
    /// # Requires
    ///
    /// `char_idx <= len_chars()`.
    ///
    /// # Errors
    ///
    /// `Size` if the text would exceed `isize::MAX` bytes, before anything is allocated; `Memory`.
    ///
    /// # Complexity
    ///
    /// `O(log n + m)` for m inserted bytes.
    pub fn insert(&mut self, char_idx: usize, text: &str) -> Result<(), Error>
        requires { char_idx ≤ length (text_of self.old) }
        ensures text { OnOk result (text_of self.new ≡
            with_inserted (text_of self.old) char_idx (chars text.now)) }
        ensures kept { OnErr result (self.new ≡ self.old) }
        ensures size { (result ≡ Err Error.Size) ↔
            (2 ^ 63 ≤ byte_len (text_of self.old) + length text.now) }
        ensures refused { IfErr result (λ error. (error ≡ Error.Size) ⊎ (error ≡ Error.Memory)) }
    {
        let at = self.char_to_byte(char_idx);
        self.insert_at(at, text)
    }

    /// Inserts as [`insert`](Self::insert) does, at an index that may be out of bounds.
    ///
    /// # Errors
    ///
    /// `CharIndexOutOfBounds(char_idx, len_chars())` if `char_idx > len_chars()`; else as `insert`.
    pub fn try_insert(&mut self, char_idx: usize, text: &str) -> Result<(), Error>
        ensures text { OnOk result (text_of self.new ≡
            with_inserted (text_of self.old) char_idx (chars text.now)) }
        ensures kept { OnErr result (self.new ≡ self.old) }
        ensures index { (result ≡
            Err (Error.CharIndexOutOfBounds char_idx (length (text_of self.old)))) ↔
            (length (text_of self.old) < char_idx) }
        ensures size { (result ≡ Err Error.Size) ↔ ((char_idx ≤ length (text_of self.old)) ×
            (2 ^ 63 ≤ byte_len (text_of self.old) + length text.now)) }
        ensures refused { IfErr result (λ error.
            (error ≡ Error.CharIndexOutOfBounds char_idx (length (text_of self.old))) ⊎
            (error ≡ Error.Size) ⊎ (error ≡ Error.Memory)) }
    {
        let byte_idx = self.try_char_to_byte(char_idx)?;
        self.insert_at(byte_idx, text)
    }

    /// Inserts one character. Otherwise like [`insert`](Self::insert).
    pub fn insert_char(&mut self, char_idx: usize, character: char) -> Result<(), Error>
        requires { char_idx ≤ length (text_of self.old) }
        ensures text { OnOk result (text_of self.new ≡
            with_inserted (text_of self.old) char_idx (character ∷ [])) }
        ensures kept { OnErr result (self.new ≡ self.old) }
        ensures size { (result ≡ Err Error.Size) ↔
            (2 ^ 63 ≤ byte_len (text_of self.old) + len_utf8 character) }
        ensures refused { IfErr result (λ error. (error ≡ Error.Size) ⊎ (error ≡ Error.Memory)) }
    {
        let mut buffer = [0; 4];
        self.insert(char_idx, character.encode_utf8(&mut buffer))
    }

    /// Inserts one character. Otherwise like [`try_insert`](Self::try_insert).
    pub fn try_insert_char(&mut self, char_idx: usize, character: char) -> Result<(), Error>
        ensures text { OnOk result (text_of self.new ≡
            with_inserted (text_of self.old) char_idx (character ∷ [])) }
        ensures kept { OnErr result (self.new ≡ self.old) }
        ensures index { (result ≡
            Err (Error.CharIndexOutOfBounds char_idx (length (text_of self.old)))) ↔
            (length (text_of self.old) < char_idx) }
        ensures size { (result ≡ Err Error.Size) ↔ ((char_idx ≤ length (text_of self.old)) ×
            (2 ^ 63 ≤ byte_len (text_of self.old) + len_utf8 character)) }
        ensures refused { IfErr result (λ error.
            (error ≡ Error.CharIndexOutOfBounds char_idx (length (text_of self.old))) ⊎
            (error ≡ Error.Size) ⊎ (error ≡ Error.Memory)) }
    {
        let mut buffer = [0; 4];
        self.try_insert(char_idx, character.encode_utf8(&mut buffer))
    }

    /// Returns the byte indices at which two characters start. For `len_chars()` this is the text's
    /// end.
    fn chars_to_bytes(&self, start: usize, end: usize) -> (usize, usize)
        requires order { start ≤ end }
        requires within { end ≤ length (text_of self.now) }
        ensures start { result.0 ≡ byte_len (take start (text_of self.now)) }
        ensures end { result.1 ≡ byte_len (take end (text_of self.now)) }
    {
        let from = self.char_to_byte(start);
        if start == end {
            return (from, from);
        }
        (from, self.char_to_byte(end))
    }

    /// Replaces the characters from `start` to `end`, exclusive.
    fn replace_chars(&mut self, start: usize, end: usize, text: &str) -> Result<(), Error>
        requires order { start ≤ end }
        requires within { end ≤ length (text_of self.old) }
        ensures text { OnOk result (text_of self.new ≡
            with_replaced (text_of self.old) start end (chars text.now)) }
        ensures kept { OnErr result (self.new ≡ self.old) }
        ensures size { (result ≡ Err Error.Size) ↔
            (2 ^ 63 ≤ byte_len (with_replaced (text_of self.old) start end (chars text.now))) }
        ensures refused { IfErr result (λ error. (error ≡ Error.Size) ⊎ (error ≡ Error.Memory)) }
    {
        let (from, to) = self.chars_to_bytes(start, end);
        self.replace_between(from, to, text)
    }

    /// Removes the characters from `start` to `end`, exclusive.
    fn remove_chars(&mut self, start: usize, end: usize) -> Result<(), Error>
        requires order { start ≤ end }
        requires within { end ≤ length (text_of self.old) }
        ensures text { OnOk result (text_of self.new ≡
            with_removed (text_of self.old) start end) }
        ensures kept { OnErr result (self.new ≡ self.old) }
        ensures refused { IfErr result (λ error. error ≡ Error.Memory) }
    {
        // Needed by the proof only.
        let _ = self.len_bytes();
        self.replace_chars(start, end, "")
    }

    /// Removes a range of characters. `O(log n)`.
    ///
    /// # Requires
    ///
    /// The range starts no later than it ends, and ends at or before `len_chars()`.
    ///
    /// # Errors
    ///
    /// `Memory`.
    pub fn remove<R: TextRange>(&mut self, char_range: R) -> Result<(), Error>
        requires { IsRangeIn (length (text_of self.old)) (R.ends char_range) }
        ensures text { OnOk result (text_of self.new ≡ with_removed (text_of self.old)
            (start_of (R.ends char_range))
            (end_of (R.ends char_range) (length (text_of self.old)))) }
        ensures kept { OnErr result (self.new ≡ self.old) }
        ensures refused { IfErr result (λ error. error ≡ Error.Memory) }
    {
        let ends = char_range.ends();
        let end = ends.end.unwrap_or(self.len_chars());
        self.remove_chars(ends.start.unwrap_or(0), end)
    }

    /// Removes any range of characters, as [`remove`](Self::remove) does.
    ///
    /// # Errors
    ///
    /// `CharRangeInvalid` if the range starts past its end, else `CharRangeOutOfBounds` if it goes
    /// past `len_chars()`; `Memory`.
    pub fn try_remove<R: TextRange>(&mut self, char_range: R) -> Result<(), Error>
        ensures range { OnOk result (IsRangeIn (length (text_of self.old)) (R.ends char_range)) }
        ensures text { OnOk result (text_of self.new ≡ with_removed (text_of self.old)
            (start_of (R.ends char_range))
            (end_of (R.ends char_range) (length (text_of self.old)))) }
        ensures kept { OnErr result (self.new ≡ self.old) }
        ensures refused { IfErr result (λ error.
            ((¬ (IsRangeIn (length (text_of self.old)) (R.ends char_range))) ×
            RefusesChars (text_of self.old) (R.ends char_range) error) ⊎
            (IsRangeIn (length (text_of self.old)) (R.ends char_range) ×
            (error ≡ Error.Memory))) }
    {
        let (start, end) = self.whole().char_indices(char_range.ends())?;
        self.remove_chars(start, end)
    }

    /// Replaces a range of characters by `text`, in one edit.
    ///
    /// An empty range inserts the text, and an empty text removes the range.
    ///
    /// # Requires
    ///
    /// The range starts no later than it ends, and ends at or before `len_chars()`.
    ///
    /// # Errors
    ///
    /// `Size` if the text would exceed `isize::MAX` bytes, before anything is allocated; `Memory`.
    ///
    /// # Complexity
    ///
    /// `O(log n + m)` for m bytes of new text.
    pub fn replace<R: TextRange>(&mut self, char_range: R, text: &str) -> Result<(), Error>
        requires { IsRangeIn (length (text_of self.old)) (R.ends char_range) }
        ensures text { OnOk result (text_of self.new ≡ with_replaced (text_of self.old)
            (start_of (R.ends char_range))
            (end_of (R.ends char_range) (length (text_of self.old))) (chars text.now)) }
        ensures kept { OnErr result (self.new ≡ self.old) }
        ensures size { (result ≡ Err Error.Size) ↔
            (2 ^ 63 ≤ byte_len (with_replaced (text_of self.old) (start_of (R.ends char_range))
            (end_of (R.ends char_range) (length (text_of self.old))) (chars text.now))) }
        ensures refused { IfErr result (λ error. (error ≡ Error.Size) ⊎ (error ≡ Error.Memory)) }
    {
        let ends = char_range.ends();
        let end = ends.end.unwrap_or(self.len_chars());
        self.replace_chars(ends.start.unwrap_or(0), end, text)
    }

    /// Replaces any range of characters, as [`replace`](Self::replace) does.
    ///
    /// # Errors
    ///
    /// `CharRangeInvalid` if the range starts past its end, else `CharRangeOutOfBounds` if it goes
    /// past `len_chars()`; else as `replace`.
    pub fn try_replace<R: TextRange>(&mut self, char_range: R, text: &str) -> Result<(), Error>
        ensures range { OnOk result (IsRangeIn (length (text_of self.old)) (R.ends char_range)) }
        ensures text { OnOk result (text_of self.new ≡ with_replaced (text_of self.old)
            (start_of (R.ends char_range))
            (end_of (R.ends char_range) (length (text_of self.old))) (chars text.now)) }
        ensures kept { OnErr result (self.new ≡ self.old) }
        ensures size { (result ≡ Err Error.Size) ↔
            (IsRangeIn (length (text_of self.old)) (R.ends char_range) ×
            (2 ^ 63 ≤ byte_len (with_replaced (text_of self.old) (start_of (R.ends char_range))
            (end_of (R.ends char_range) (length (text_of self.old))) (chars text.now)))) }
        ensures refused { IfErr result (λ error.
            ((¬ (IsRangeIn (length (text_of self.old)) (R.ends char_range))) ×
            RefusesChars (text_of self.old) (R.ends char_range) error) ⊎
            (IsRangeIn (length (text_of self.old)) (R.ends char_range) ×
            ((error ≡ Error.Size) ⊎ (error ≡ Error.Memory)))) }
    {
        let (start, end) = self.whole().char_indices(char_range.ends())?;
        self.replace_chars(start, end, text)
    }

    /// Replaces the bytes from `start` to `end`, exclusive, both at character boundaries.
    fn replace_bytes(&mut self, start: usize, end: usize, text: &str) -> Result<(), Error>
        requires order { start ≤ end }
        requires starts { IsCharBoundary (text_bytes self.old) start }
        requires ends { IsCharBoundary (text_bytes self.old) end }
        ensures text { OnOk result (IsReplaced (text_of self.old) start end (chars text.now)
            (text_of self.new)) }
        ensures bytes { OnOk result (text_bytes self.new ≡
            with_replaced (text_bytes self.old) start end text.now) }
        ensures kept { OnErr result (self.new ≡ self.old) }
        ensures size { (result ≡ Err Error.Size) ↔
            (2 ^ 63 ≤ length (with_replaced (text_bytes self.old) start end text.now)) }
        ensures refused { IfErr result (λ error. (error ≡ Error.Size) ⊎ (error ≡ Error.Memory)) }
    {
        // Needed by the proof only.
        let _ = self.len_bytes();
        self.replace_between(start, end, text)
    }

    /// Replaces a range of bytes by `text`, as [`replace`](Self::replace) does, without converting
    /// indices.
    ///
    /// # Requires
    ///
    /// The range starts no later than it ends, ends at or before `len_bytes()`, and starts and ends
    /// at character boundaries.
    ///
    /// # Errors
    ///
    /// `Size` if the text would exceed `isize::MAX` bytes, before anything is allocated; `Memory`.
    pub fn byte_replace<R: TextRange>(&mut self, byte_range: R, text: &str) -> Result<(), Error>
        requires { IsByteRangeIn (text_of self.old) (R.ends byte_range) }
        ensures text { OnOk result (IsReplaced (text_of self.old) (start_of (R.ends byte_range))
            (end_of (R.ends byte_range) (byte_len (text_of self.old))) (chars text.now)
            (text_of self.new)) }
        ensures bytes { OnOk result (text_bytes self.new ≡ with_replaced (text_bytes self.old)
            (start_of (R.ends byte_range))
            (end_of (R.ends byte_range) (byte_len (text_of self.old))) text.now) }
        ensures kept { OnErr result (self.new ≡ self.old) }
        ensures size { (result ≡ Err Error.Size) ↔
            (2 ^ 63 ≤ length (with_replaced (text_bytes self.old) (start_of (R.ends byte_range))
            (end_of (R.ends byte_range) (byte_len (text_of self.old))) text.now)) }
        ensures refused { IfErr result (λ error. (error ≡ Error.Size) ⊎ (error ≡ Error.Memory)) }
    {
        let ends = byte_range.ends();
        let end = ends.end.unwrap_or(self.len_bytes());
        self.replace_bytes(ends.start.unwrap_or(0), end, text)
    }

    /// Replaces any range of bytes, as [`byte_replace`](Self::byte_replace) does.
    ///
    /// # Errors
    ///
    /// `ByteRangeInvalid` if the range starts past its end, else `ByteRangeOutOfBounds` if it goes
    /// past `len_bytes()`, else `ByteRangeNotCharBoundary` if it starts or ends inside a character;
    /// else as `byte_replace`.
    pub fn try_byte_replace<R: TextRange>(&mut self, byte_range: R, text: &str) -> Result<(), Error>
        ensures range { OnOk result (IsByteRangeIn (text_of self.old) (R.ends byte_range)) }
        ensures text { OnOk result (IsReplaced (text_of self.old) (start_of (R.ends byte_range))
            (end_of (R.ends byte_range) (byte_len (text_of self.old))) (chars text.now)
            (text_of self.new)) }
        ensures bytes { OnOk result (text_bytes self.new ≡ with_replaced (text_bytes self.old)
            (start_of (R.ends byte_range))
            (end_of (R.ends byte_range) (byte_len (text_of self.old))) text.now) }
        ensures kept { OnErr result (self.new ≡ self.old) }
        ensures size { (result ≡ Err Error.Size) ↔
            (IsByteRangeIn (text_of self.old) (R.ends byte_range) ×
            (2 ^ 63 ≤ length (with_replaced (text_bytes self.old) (start_of (R.ends byte_range))
            (end_of (R.ends byte_range) (byte_len (text_of self.old))) text.now))) }
        ensures refused { IfErr result (λ error.
            ((¬ (IsByteRangeIn (text_of self.old) (R.ends byte_range))) ×
            RefusesBytes (text_of self.old) (R.ends byte_range) error) ⊎
            (IsByteRangeIn (text_of self.old) (R.ends byte_range) ×
            ((error ≡ Error.Size) ⊎ (error ≡ Error.Memory)))) }
    {
        let (start, end) = self.whole().byte_indices(byte_range.ends())?;
        self.replace_bytes(start, end, text)
    }

    /// Splits the rope at a byte index, which is a character boundary.
    fn split_off_at(&mut self, byte_idx: usize) -> Result<Rope, Error>
        requires { IsBoundaryOf (text_of self.old) byte_idx }
        ensures text { IfOk result (λ rest. text_of self.new ++ text_of rest ≡ text_of self.old) }
        ensures place { OnOk result (byte_len (text_of self.new) ≡ byte_idx) }
        ensures kept { OnErr result (self.new ≡ self.old) }
        ensures refused { IfErr result (λ error. error ≡ Error.Memory) }
    {
        let alloc = self.alloc;
        let halves = halves_of(alloc, &self.root, byte_idx)?;
        *self = Rope::of_tree(alloc, halves.left);
        Ok(Rope::of_tree(alloc, halves.right))
    }

    /// Splits the rope before the character at `char_idx`, and returns the part from there on.
    /// `O(log n)`.
    ///
    /// The rope keeps the text before it. The returned rope shares nodes with this one, and is
    /// empty for `len_chars()`.
    ///
    /// # Requires
    ///
    /// `char_idx <= len_chars()`.
    ///
    /// # Errors
    ///
    /// `Memory`.
    pub fn split_off(&mut self, char_idx: usize) -> Result<Rope, Error>
        requires { char_idx ≤ length (text_of self.old) }
        ensures front { OnOk result (text_of self.new ≡ take char_idx (text_of self.old)) }
        ensures back { IfOk result (λ rest. text_of rest ≡ drop char_idx (text_of self.old)) }
        ensures kept { OnErr result (self.new ≡ self.old) }
        ensures refused { IfErr result (λ error. error ≡ Error.Memory) }
    {
        let byte_idx = self.char_to_byte(char_idx);
        self.split_off_at(byte_idx)
    }

    /// Splits as [`split_off`](Self::split_off) does, at an index that may be out of bounds.
    ///
    /// # Errors
    ///
    /// `CharIndexOutOfBounds(char_idx, len_chars())` if `char_idx > len_chars()`; `Memory`.
    pub fn try_split_off(&mut self, char_idx: usize) -> Result<Rope, Error>
        ensures front { OnOk result (text_of self.new ≡ take char_idx (text_of self.old)) }
        ensures back { IfOk result (λ rest. text_of rest ≡ drop char_idx (text_of self.old)) }
        ensures kept { OnErr result (self.new ≡ self.old) }
        ensures index { (result ≡
            Err (Error.CharIndexOutOfBounds char_idx (length (text_of self.old)))) ↔
            (length (text_of self.old) < char_idx) }
        ensures refused { IfErr result (λ error.
            (error ≡ Error.CharIndexOutOfBounds char_idx (length (text_of self.old))) ⊎
            (error ≡ Error.Memory)) }
    {
        let byte_idx = self.try_char_to_byte(char_idx)?;
        self.split_off_at(byte_idx)
    }

    /// Appends the text of another rope, and shares its nodes. `O(log n)`.
    ///
    /// A CR and an LF that meet are then in one chunk.
    ///
    /// # Errors
    ///
    /// `Size` if the text would exceed `isize::MAX` bytes, before anything is allocated; `Memory`.
    /// Both drop `other`.
    pub fn append(&mut self, other: Rope) -> Result<(), Error>
        ensures text { OnOk result (text_of self.new ≡ text_of self.old ++ text_of other) }
        ensures kept { OnErr result (self.new ≡ self.old) }
        ensures size { (result ≡ Err Error.Size) ↔
            (2 ^ 63 ≤ byte_len (text_of self.old) + byte_len (text_of other)) }
        ensures refused { IfErr result (λ error. (error ≡ Error.Size) ⊎ (error ≡ Error.Memory)) }
    {
        if other.len_bytes() > MAX_TEXT_BYTES - self.len_bytes() {
            return Err(Error::Size);
        }
        let alloc = self.alloc;
        let front = self.clone()?;
        let root = seams::append(alloc, front.root, other.root)?;
        *self = Rope::of_tree(alloc, root);
        Ok(())
    }
}
