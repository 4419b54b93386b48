//! The data of a page, as a text of JSON that can't end the element in which it stands.

ghost use Rattle.std.specs.Prelude.{◌≡◌, ◌<◌, ◌++◌, ◌∷◌, [], true, OnOk, length};
ghost use Rattle.brd_text.specs.Hex.{hex_digit};
ghost use Rattle.std.specs.Fmt.{decimal};
ghost use Rattle.std.specs.List.{flat_map, list_all};
ghost use Rattle.brd_listing.specs.Listing.{IsBehind};
ghost use Rattle.brd_page.specs.Data as texts;

use brd_base::NoMemory;
use itoa::Buffer;
use std::alloc::Global;
use std::marker::Model;

/// A text of JSON that grows at its end. Each of its bytes is plain.
pub(crate) struct Json {
    bytes: Vec<u8>,
}

impl Model for Json {
    ghost use Rattle.std.specs.Prelude.{List, ℕ, ◌≡◌, true};
    ghost use Rattle.std.specs.List.{list_all};
    ghost use Rattle.brd_page.specs.Data.{is_plain};

    ghost Value = { List ℕ };

    ghost view = { λ json. json.bytes.items };

    ghost invariant = { λ json. list_all is_plain json.bytes.items ≡ true };
}

impl Drop for Json {
    fn drop(self) {
        let Json { bytes: _ } = self;
    }
}

impl Json {
    /// No text.
    pub(crate) fn new(alloc: Global) -> Json
        ensures { result ≡ [] }
    {
        Json {
            bytes: Vec::new(alloc),
        }
    }

    /// The text.
    pub(crate) fn as_slice(&self) -> &[u8]
        ensures is { result.now ≡ self.now }
        ensures plain { list_all texts.is_plain result.now ≡ true }
    {
        self.bytes.as_slice()
    }

    /// How many bytes there are.
    pub(crate) fn len(&self) -> usize
        ensures { result ≡ length self.now }
    {
        self.bytes.len()
    }

    /// Puts a byte at the end.
    fn push(&mut self, byte: u8) -> Result<(), NoMemory>
        requires { texts.is_plain byte ≡ true }
        ensures { OnOk result (self.new ≡ self.old ++ byte ∷ []) }
    {
        self.bytes.push(byte)?;
        Ok(())
    }

    /// Puts a comma at the end, unless something begins there.
    #[tactic(auto, unfolding(crate::specs::Data::is_plain))]
    fn separate(&mut self) -> Result<(), NoMemory> {
        match self.bytes.last() {
            None | Some(b'[' | b'{' | b':' | b'\n') => Ok(()),
            Some(_) => self.push(b','),
        }
    }

    /// Begins a line.
    #[tactic(auto, unfolding(crate::specs::Data::is_plain))]
    pub(crate) fn begin_line(&mut self) -> Result<(), NoMemory> {
        self.separate()?;
        self.push(b'\n')
    }

    /// Begins a list.
    #[tactic(auto, unfolding(crate::specs::Data::is_plain))]
    pub(crate) fn begin_list(&mut self) -> Result<(), NoMemory> {
        self.separate()?;
        self.push(b'[')
    }

    /// Ends a list.
    #[tactic(auto, unfolding(crate::specs::Data::is_plain))]
    pub(crate) fn end_list(&mut self) -> Result<(), NoMemory> {
        self.push(b']')
    }

    /// Begins an object.
    #[tactic(auto, unfolding(crate::specs::Data::is_plain))]
    pub(crate) fn begin_object(&mut self) -> Result<(), NoMemory> {
        self.separate()?;
        self.push(b'{')
    }

    /// Ends a list, puts these members behind it in the object in which it is, and ends that.
    #[tactic(auto, unfolding(crate::specs::Data::is_plain))]
    pub(crate) fn end_with(&mut self, members: &Json) -> Result<(), NoMemory>
        ensures { OnOk result (self.new ≡ self.old ++ texts.end_text members.now) }
    {
        self.push(b']')?;
        self.push(b',')?;
        self.extend(members)?;
        self.push(b'}')
    }

    /// Puts the name of a member at the end; its value comes next.
    #[tactic(auto, unfolding(crate::specs::Data::is_plain))]
    pub(crate) fn key(&mut self, name: &str) -> Result<(), NoMemory> {
        self.string(name.as_bytes())?;
        self.push(b':')
    }

    /// Puts a number at the end.
    pub(crate) fn number(&mut self, number: u64) -> Result<(), NoMemory> {
        self.separate()?;
        self.put_digits(number)
    }

    /// Puts the digits of a number at the end.
    fn put_digits(&mut self, number: u64) -> Result<(), NoMemory>
        ensures { OnOk result (self.new ≡ self.old ++ decimal number) }
    {
        let mut buffer = Buffer::new();
        self.put_bytes(buffer.format(number).as_bytes())
    }

    /// Puts a text at the end.
    pub(crate) fn extend(&mut self, other: &Json) -> Result<(), NoMemory>
        ensures { OnOk result (self.new ≡ self.old ++ other.now) }
    {
        self.bytes.extend_from_slice(other.bytes.as_slice())?;
        Ok(())
    }

    /// Puts the object of an event at the end, behind others unless it is the first one: whose step it was, where, and
    /// then these members.
    pub(crate) fn put_row(
        &mut self,
        first: bool,
        cpu: Option<u8>,
        place: Option<u32>,
        members: &Json,
    ) -> Result<(), NoMemory>
        ensures { OnOk result (IsBehind (texts.IsRow first cpu place) self.old self.new) }
    {
        self.begin_row(first)?;
        self.put_head(cpu, place)?;
        self.put_others(cpu.is_some() || place.is_some(), members)
    }

    /// Begins the object of an event, behind others unless it is the first one.
    #[tactic(auto, unfolding(crate::specs::Data::is_plain))]
    fn begin_row(&mut self, first: bool) -> Result<(), NoMemory>
        ensures { OnOk result (self.new ≡ self.old ++ texts.row_front first) }
    {
        if !first {
            self.push(b',')?;
        }
        self.push(b'\n')?;
        self.push(b'{')
    }

    /// Puts at the end whose step an event was, and where.
    #[tactic(auto, unfolding(crate::specs::Data::is_plain))]
    fn put_head(&mut self, cpu: Option<u8>, place: Option<u32>) -> Result<(), NoMemory>
        ensures { OnOk result (self.new ≡ self.old ++ texts.head_text cpu place) }
    {
        match (cpu, place) {
            (Some(cpu), Some(place)) => {
                self.put_member(b'c', u64::from(cpu))?;
                self.push(b',')?;
                self.put_member(b'a', u64::from(place))
            }
            (Some(cpu), None) => self.put_member(b'c', u64::from(cpu)),
            (None, Some(place)) => self.put_member(b'a', u64::from(place)),
            (None, None) => Ok(()),
        }
    }

    /// Puts a member at the end whose name is one letter, without a comma before it.
    #[tactic(auto, unfolding(crate::specs::Data::is_plain))]
    fn put_member(&mut self, name: u8, number: u64) -> Result<(), NoMemory>
        requires { texts.is_plain name ≡ true }
        ensures { OnOk result (self.new ≡ self.old ++ texts.member_text name number) }
    {
        self.push(b'"')?;
        self.push(name)?;
        self.push(b'"')?;
        self.push(b':')?;
        self.put_digits(number)
    }

    /// Puts the other members of an event's object at the end, with a comma where they are behind some, and ends it.
    #[tactic(auto, unfolding(crate::specs::Data::is_plain))]
    fn put_others(&mut self, behind: bool, members: &Json) -> Result<(), NoMemory>
        ensures { OnOk result (IsBehind texts.IsAny self.old self.new) }
    {
        if behind && members.len() > 0 {
            self.push(b',')?;
        }
        self.extend(members)?;
        self.push(b'}')
    }

    /// Puts a word at the end.
    pub(crate) fn word(&mut self, word: u32) -> Result<(), NoMemory> {
        self.number(u64::from(word))
    }

    /// Puts a member at the end whose value is a number.
    pub(crate) fn member(&mut self, name: &str, number: u64) -> Result<(), NoMemory> {
        self.key(name)?;
        self.number(number)
    }

    /// Puts bytes at the end as a string.
    pub(crate) fn string(&mut self, text: &[u8]) -> Result<(), NoMemory> {
        self.separate()?;
        self.put_string(text)
    }

    /// Puts bytes at the end as a string, without a comma before it.
    #[tactic(auto, unfolding(crate::specs::Data::is_plain))]
    fn put_string(&mut self, text: &[u8]) -> Result<(), NoMemory>
        ensures { OnOk result (self.new ≡ self.old ++ texts.data_string text.now) }
    {
        self.push(b'"')?;
        self.put_bytes(text)?;
        self.push(b'"')
    }

    /// Puts bytes at the end as they stand in a string.
    fn put_bytes(&mut self, text: &[u8]) -> Result<(), NoMemory>
        ensures { OnOk result (self.new ≡ self.old ++ flat_map texts.data_byte text.now) }
    {
        for byte in text {
            self.put_byte(*byte)?;
        }
        Ok(())
    }

    /// Puts a byte at the end as it stands in a string.
    #[tactic(auto, unfolding(crate::specs::Data::is_plain))]
    fn put_byte(&mut self, byte: u8) -> Result<(), NoMemory>
        ensures { OnOk result (self.new ≡ self.old ++ texts.data_byte byte) }
    {
        if is_itself(byte) {
            return self.push(byte);
        }
        self.push(b'\\')?;
        self.push(b'u')?;
        self.push(b'0')?;
        self.push(b'0')?;
        self.put_digit(byte / 16)?;
        self.put_digit(byte % 16)
    }

    /// Puts a hexadecimal digit at the end.
    #[tactic(auto, unfolding(crate::specs::Data::is_plain, brd_text::specs::Hex::hex_digit))]
    fn put_digit(&mut self, value: u8) -> Result<(), NoMemory>
        requires { value < 16 }
        ensures { OnOk result (self.new ≡ self.old ++ hex_digit value ∷ []) }
    {
        if value < 10 {
            self.push(b'0' + value)
        } else {
            self.push(b'a' + (value - 10))
        }
    }
}

/// Whether a byte stands for itself in a string.
#[tactic(auto, unfolding(crate::specs::Data::is_itself, crate::specs::Data::is_plain))]
fn is_itself(byte: u8) -> bool
    ensures is { result ≡ texts.is_itself byte }
    ensures plain { result ≡ true → texts.is_plain byte ≡ true }
{
    32 <= byte && byte <= 126 && !matches!(byte, b'&' | b'<' | b'>' | b'"' | b'\\')
}
