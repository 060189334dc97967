//! How a program says why a run fails, or is refused, or what it did beside relaying: on a line after its name. If faults are told as
//! objects, it is an object too, so that who reads objects meets nothing else.
ghost use Rattle.std.specs.Prelude.{◌≡◌, ◌++◌, false, string_bytes, OnOk};
ghost use Rattle.lp_words.specs.Options.{are_objects};
ghost use Rattle.lp_endings.specs.RunErrors.{fault_name, file_member, notice_file, notice_kind, said_end, said_start, told_object};

use lp_escapes::forms::Faults;
use lp_escapes::json::put_json_text;
use lp_rebuild::RunFault;
use lp_words::options::are_objects;
use lp_words::told::ToldName;
use std::alloc::{AllocError, Global};
use std::{fmt, io};

/// What says why a run fails.
#[derive(Clone, Copy)]
pub struct Speaker<'p> {
    /// The name of the program.
    pub program: &'p str,
    /// Whether it says so by objects.
    pub as_objects: bool,
}

// The object of an error if there is no memory for another.
const OUT_OF_MEMORY: &str =
    "{\"run_error\":{\"kind\":\"out_of_memory\",\"text\":\"out of memory\"}}";

/// The name of a fault of a run, as its object tells it.
pub fn fault_name(fault: RunFault) -> &'static str
    ensures { result.now ≡ fault_name fault }
{
    match fault {
        RunFault::Read => "read",
        RunFault::NotUtf8 => "not_utf8",
        RunFault::OutOfMemory => "out_of_memory",
        RunFault::Write => "write",
    }
}

// Adds the start of the object of this name of what is said, which has a kind.
fn put_start(object: &mut String, name: &str, kind: &str) -> Result<(), AllocError>
    ensures { OnOk result (string_bytes object.new ≡ string_bytes object.old ++ said_start name.now kind.now) }
{
    object.push_str("{\"")?;
    object.push_str(name)?;
    object.push_str("\":{\"kind\":\"")?;
    object.push_str(kind)?;
    object.push_str("\"")
}

// Adds the member that tells the name of a file, if there is one.
fn put_file(object: &mut String, file: Option<&str>) -> Result<(), AllocError>
    ensures { OnOk result (string_bytes object.new ≡ string_bytes object.old ++ file_member file.entry) }
{
    let Some(name) = file else {
        return Ok(());
    };
    object.push_str(",\"file\":\"")?;
    put_json_text(object, name)?;
    object.push_str("\"")
}

// Adds its end, which has the text.
fn put_end(object: &mut String, text: &str) -> Result<(), AllocError>
    ensures { OnOk result (string_bytes object.new ≡ string_bytes object.old ++ said_end text.now) }
{
    object.push_str(",\"text\":\"")?;
    put_json_text(object, text)?;
    object.push_str("\"}}")
}

// Adds the object of this name of what is said, which has a kind, and a file if that has a name.
fn put_object(
    object: &mut String,
    name: &str,
    kind: &str,
    file: Option<&str>,
    text: &str,
) -> Result<(), AllocError>
    ensures { OnOk result (string_bytes object.new ≡ string_bytes object.old ++ told_object name.now kind.now file.entry text.now) }
{
    put_start(object, name, kind)?;
    put_file(object, file)?;
    put_end(object, text)
}

// The object of this name whose text is shown by `why`.
fn object_of<D: fmt::Display>(
    alloc: Global,
    name: &str,
    kind: &str,
    file: Option<&str>,
    why: &D,
) -> Result<String, AllocError> {
    let mut text = String::new(alloc);
    write!(text, "{why}")?;
    let mut object = String::new(alloc);
    put_object(&mut object, name, kind, file, text.as_str())?;
    Ok(object)
}

impl<'p> Speaker<'p> {
    /// What says by texts why a run fails.
    pub fn by_texts(program: &'p str) -> Self
        ensures { result ≡ record { program = program.entry; as_objects = false } }
    {
        Speaker {
            program,
            as_objects: false,
        }
    }

    /// What says it as faults are told.
    pub fn as_faults(program: &'p str, faults: Faults) -> Self
        ensures { result ≡ record { program = program.entry; as_objects = are_objects faults } }
    {
        Speaker {
            program,
            as_objects: are_objects(faults),
        }
    }

    // Says something on standard error, as an object of this name if it says objects.
    fn say_as<D: fmt::Display>(
        self,
        rt: &HostRuntime,
        name: &str,
        kind: &str,
        file: Option<&str>,
        why: &D,
    ) {
        let program = self.program;
        if !self.as_objects {
            let _ = eprintln!(rt; "{program}: {why}");
            return;
        }
        let _ = match object_of(rt.alloc(), name, kind, file, why) {
            Ok(object) => eprintln!(rt; "{}", object.as_str()),
            Err(_) => eprintln!(rt; "{OUT_OF_MEMORY}"),
        };
    }

    /// Says on standard error why a run fails, with an error of this kind, over a file if it has a name.
    pub fn say<D: fmt::Display>(self, rt: &HostRuntime, kind: &str, file: Option<&str>, why: &D) {
        self.say_as(rt, "run_error", kind, file, why);
    }

    /// Says on standard error what a run does that goes on.
    pub fn notify(self, rt: &HostRuntime, notice: Notice<'_>) {
        self.say_as(rt, "notice", notice.kind(), notice.file(), &notice);
    }
}

/// What a run says that goes on.
#[derive(Clone, Copy)]
pub enum Notice<'a> {
    /// It removed a file of this name, which a run that was ended had left.
    Removed(&'a str),
    /// The input, which is a file if it has a name, begins with a byte order mark.
    Marked(Option<&'a str>),
    /// The new file of this name is not of the owner and group of the old one, since the system said so.
    Unkept(&'a str, io::Error),
}

impl<'a> Notice<'a> {
    // The name of its kind, as its object tells it.
    fn kind(self) -> &'static str
        ensures { result.now ≡ notice_kind self.entry }
    {
        match self {
            Notice::Removed(_) => "removed",
            Notice::Marked(_) => "byte_order_mark",
            Notice::Unkept(..) => "owner_not_kept",
        }
    }

    // The name of its file.
    fn file(self) -> Option<&'a str>
        ensures { result ≡ notice_file self.entry }
    {
        match self {
            Notice::Removed(name) | Notice::Unkept(name, _) => Some(name),
            Notice::Marked(name) => name,
        }
    }
}

impl<'a> fmt::Display for Notice<'a> {
    fn fmt<W: fmt::Write>(&self, f: &mut fmt::Formatter<W>) -> fmt::Result {
        match *self {
            Notice::Removed(name) => {
                let name = ToldName::of(name);
                write!(f, "removed {name}, which an ended run had left")
            }
            Notice::Marked(name) => {
                if let Some(name) = name {
                    let name = ToldName::of(name);
                    write!(f, "{name}: ")?;
                }
                f.write_str(
                    "the input begins with a byte order mark, which is part of its first line",
                )
            }
            Notice::Unkept(name, error) => {
                let name = ToldName::of(name);
                write!(
                    f,
                    "{name}: the new file has another owner or group than the old one: {error}"
                )
            }
        }
    }
}
