//! The layouts of structs, by the line.
ghost use Rattle.std.specs.Prelude.{◌≡◌, ◌<◌, ◌≤◌, All, IfOk, OnOk, length, vec_len};
ghost use Rattle.c_types.specs.Types.{Struct, IsIn, HasSize, IsOpen, type_at, members_at};
ghost use Rattle.c_types.specs.Layouts.{CanBuild, CanStand};

use c_types::{Shape, TypeId, TypeTable};
use mx_base::{IntKind, OutOfMemory};
use std::alloc::{AllocError, Global};

/// The most bytes of a member, and the most elements of an array.
const LIMIT: u64 = 16_777_216;

/// The most types and structs of a line.
const MOST: u32 = 100_000;

/// The structs of a line that have been read, and the members of the next one.
#[derive(Drop)]
struct Structs {
    table: TypeTable,
    types: u32,
    begun: u32,
    members: Vec<TypeId>,
    done: Vec<TypeId>,
    ghost members_stand: { All (CanStand table) members.items },
    ghost done_stand: { All (CanStand table) done.items },
    ghost few_types: { length table.shapes ≤ types },
    ghost few_structs: { table.begun ≤ begun },
}

/// The size, the alignment and the offsets of the members of each struct of a line, the structs apart by `;`, or why there are none. Each
/// word of a line adds a member to the struct that is being read, or changes the last one: an integer is `c`, `h`, `i` or `l` for 8,
/// 16, 32 and 64 bits, its unsigned form the capital letter; `p` makes the last member a pointer to it, `aN` an array of N of it;
/// `sK` is the struct K of the line, counted from 0; and `;` ends the struct.
pub fn layout_line(alloc: Global, line: &str) -> Result<String, AllocError> {
    match layouts(alloc, line) {
        Ok(Some(text)) => Ok(text),
        Ok(None) => String::from_str(alloc, "no struct"),
        Err(OutOfMemory) => String::from_str(alloc, "no memory"),
    }
}

fn layouts(alloc: Global, line: &str) -> Result<Option<String>, OutOfMemory> {
    let mut structs = Structs::make(alloc)?;
    let mut text = String::new(alloc);
    for word in line.split_whitespace() {
        let read = if word == ";" {
            structs.end(alloc, &mut text)?
        } else {
            structs.member(word)?
        };
        if !read {
            return Ok(None);
        }
    }
    Ok(Some(text))
}

/// The integer of a letter.
fn integer(word: &str) -> Option<IntKind> {
    match word {
        "c" => Some(IntKind::I8),
        "C" => Some(IntKind::U8),
        "h" => Some(IntKind::I16),
        "H" => Some(IntKind::U16),
        "i" => Some(IntKind::I32),
        "I" => Some(IntKind::U32),
        "l" => Some(IntKind::I64),
        "L" => Some(IntKind::U64),
        _ => None,
    }
}

/// The number behind the first letter of a word.
fn number(letter: char, word: &str) -> Option<u32> {
    match word.strip_prefix(letter)?.parse::<u32>() {
        Ok(n) => Some(n),
        Err(_) => None,
    }
}

impl Structs {
    fn make(alloc: Global) -> Result<Structs, OutOfMemory> {
        let table = TypeTable::make(alloc)?;
        Ok(Structs {
            table,
            types: 0,
            begun: 0,
            members: Vec::new(alloc),
            done: Vec::new(alloc),
        })
    }

    /// Reads a word of a member, and says whether it is one.
    fn member(&mut self, word: &str) -> Result<bool, OutOfMemory> {
        if self.types >= MOST {
            return Ok(false);
        }
        if let Some(kind) = integer(word) {
            return self.add_integer(kind);
        }
        if word == "p" {
            return self.point();
        }
        if let Some(count) = number('a', word) {
            return self.repeat(u64::from(count));
        }
        match number('s', word) {
            Some(place) => self.again(place),
            None => Ok(false),
        }
    }

    fn add_integer(&mut self, kind: IntKind) -> Result<bool, OutOfMemory>
        requires { self.old.types ≤ MOST }
    {
        let t = self.table.intern(Shape::Int(kind))?;
        self.types += 1;
        self.members.push(t)?;
        Ok(true)
    }

    /// Makes the last member a pointer to what it was.
    fn point(&mut self) -> Result<bool, OutOfMemory>
        requires { self.old.types ≤ MOST }
    {
        let Some(target) = self.members.pop() else {
            return Ok(false);
        };
        let t = self.table.intern(Shape::Pointer(target))?;
        self.types += 1;
        self.members.push(t)?;
        Ok(true)
    }

    /// Makes the last member an array of what it was.
    fn repeat(&mut self, count: u64) -> Result<bool, OutOfMemory>
        requires { self.old.types ≤ MOST }
    {
        let Some(element) = self.members.pop() else {
            return Ok(false);
        };
        if count < 1 || LIMIT < count {
            return Ok(false);
        }
        let t = self.table.intern(Shape::Array(element, count))?;
        self.types += 1;
        if LIMIT < self.table.size(t) {
            return Ok(false);
        }
        self.members.push(t)?;
        Ok(true)
    }

    /// Adds a struct that was read before as a member.
    fn again(&mut self, place: u32) -> Result<bool, OutOfMemory> {
        match self.done.get(place as usize) {
            Some(t) => {
                let t = *t;
                self.members.push(t)?;
                Ok(true)
            }
            None => Ok(false),
        }
    }

    /// Begins the next struct of the table.
    fn begin(&mut self) -> Result<u32, OutOfMemory>
        requires { self.old.begun < MOST }
        ensures open { IfOk result (λ number. IsOpen self.new.table number) }
        ensures members { OnOk result (self.new.members ≡ self.old.members) }
        ensures types { OnOk result (self.new.types ≡ self.old.types) }
    {
        let number = self.table.begin_struct()?;
        self.begun += 1;
        Ok(number)
    }

    /// The type of a struct that was begun.
    fn named(&mut self, number: u32) -> Result<TypeId, OutOfMemory>
        requires open { IsOpen self.old.table number }
        requires room { self.old.types < MOST }
        ensures inside { IfOk result (λ t. IsIn self.new.table t) }
        ensures is { IfOk result (λ t. type_at self.new.table t ≡ Struct number) }
        ensures open { OnOk result (IsOpen self.new.table number) }
        ensures members { OnOk result (self.new.members ≡ self.old.members) }
    {
        let t = self.table.intern(Shape::Struct(number))?;
        self.types += 1;
        Ok(t)
    }

    /// Gives a struct the members that were read.
    fn finish(&mut self, number: u32, t: TypeId) -> Result<(), OutOfMemory>
        requires open { IsOpen self.old.table number }
        requires inside { IsIn self.old.table t }
        requires is { type_at self.old.table t ≡ Struct number }
        requires some { 1 ≤ vec_len self.old.members }
        requires few { vec_len self.old.members ≤ 32768 }
        ensures inside { OnOk result (IsIn self.new.table t) }
        ensures sized { OnOk result (HasSize self.new.table t) }
        ensures counted { OnOk result (vec_len self.old.members ≤ length (members_at self.new.table t)) }
        ensures members { OnOk result (self.new.members ≡ self.old.members) }
    {
        self.table.end_struct(number, self.members.as_slice())
    }

    /// Keeps a struct that has its members, if it is within the limit.
    fn keep(&mut self, t: TypeId) -> Result<bool, OutOfMemory>
        requires inside { IsIn self.old.table t }
        requires sized { HasSize self.old.table t }
    {
        self.members.clear();
        if LIMIT < self.table.size(t) {
            return Ok(false);
        }
        self.done.push(t)?;
        Ok(true)
    }

    /// Ends the struct that is being read, and adds its layout to the text.
    fn end(&mut self, alloc: Global, text: &mut String) -> Result<bool, OutOfMemory> {
        if self.types >= MOST || self.begun >= MOST {
            return Ok(false);
        }
        if self.members.len() < 1 || self.members.len() > 32_768 {
            return Ok(false);
        }
        let number = self.begin()?;
        let t = self.named(number)?;
        self.finish(number, t)?;
        let line = told(alloc, &self.table, t, self.members.len() as u32)?;
        text.push_str(line.as_str())?;
        self.keep(t)
    }
}

/// The size, the alignment and the offsets of a struct.
fn told(alloc: Global, table: &TypeTable, t: TypeId, members: u32) -> Result<String, OutOfMemory>
    requires inside { IsIn table.now t }
    requires sized { HasSize table.now t }
    requires few { members ≤ length (members_at table.now t) }
{
    let size = table.size(t);
    let align = table.align(t);
    let mut text = format!(in alloc; "{size} {align}")?;
    for member in 0..members {
        let offset = table.offset(t, member);
        let more = format!(in alloc; " {offset}")?;
        text.push_str(more.as_str())?;
    }
    text.push_str(";")?;
    Ok(text)
}
