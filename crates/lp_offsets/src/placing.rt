//! A sink that puts a line down by offsets, part by part, as it is told.

ghost use Rattle.std.specs.Prelude.{◌≡◌, ◌<◌, ◌≤◌, ◌+◌, ◌^◌, None, Ok, length};
ghost use Rattle.influxdb_line_protocol.specs.code.Rules.{rules_of};
ghost use Rattle.influxdb_line_protocol.specs.format.Lines.{Line, answer};
ghost use Rattle.lp_events.specs.code.Stops.{IsStopOf};
ghost use Rattle.lp_offsets.specs.Offsets.{texts_len};
ghost use Rattle.lp_offsets.specs.Rooms.{Grows};
ghost use Rattle.lp_offsets.specs.Placing.{ToldAnswer, told_of};

use crate::placed::{
    LineIn, NOWHERE, OffsetPart, PartIn, Placed, place_field, place_tag, place_text,
};
use influxdb_line_protocol::{Spelled, SpelledFault, SpelledValue};
use lp_events::{PlacedSink, read_placed_events};

// What was told of a line: how many tags and fields it has, how many bytes of the room are in use, its measurement and its timestamp;
// or its fault.
#[derive(Clone, Copy)]
pub(crate) struct Told<'a> {
    pub(crate) tags: usize,
    pub(crate) fields: usize,
    pub(crate) used: usize,
    pub(crate) name: Placed,
    pub(crate) timestamp: Option<i64>,
    pub(crate) fault: Option<SpelledFault<'a>>,
}

// A line that is told: where it lies, where it is put, what was counted of it, and its fault, if it has one.
#[derive(Drop)]
pub(crate) struct Placing<'l, 'a> {
    pub(crate) line: LineIn<'a>,
    pub(crate) parts: &'l mut [OffsetPart],
    pub(crate) room: &'l mut [u8],
    pub(crate) used: usize,
    pub(crate) tags: usize,
    pub(crate) fields: usize,
    pub(crate) name: Placed,
    pub(crate) timestamp: Option<i64>,
    pub(crate) fault: Option<SpelledFault<'a>>,
}

impl<'l, 'a> PlacedSink<'a> for Placing<'l, 'a> {
    ghost use Rattle.lp_offsets.specs.Placing.{Places};

    ghost line = { λ placing. placing.line.line.now };

    ghost takes = { Places };

    #[inline(always)]
    fn measurement(&mut self, name: Spelled<'a>, left: usize) {
        let (name, used) = place_text(self.line, left, self.room, self.used, name);
        self.tags = 0;
        self.fields = 0;
        self.name = name;
        self.used = used;
    }

    #[inline(always)]
    fn tag(&mut self, key: Spelled<'a>, value: Spelled<'a>, key_left: usize, left: usize) {
        let place = self.tags.wrapping_add(self.fields);
        self.tags = self.tags.wrapping_add(1);
        let part = PartIn {
            line: self.line,
            key_left,
            left,
        };
        let (part, used) = place_tag(part, self.room, self.used, key, value);
        self.used = used;
        if place < self.parts.len() {
            self.parts[place] = part;
        }
    }

    #[inline(always)]
    fn field(&mut self, key: Spelled<'a>, value: SpelledValue<'a>, key_left: usize, left: usize) {
        let place = self.tags.wrapping_add(self.fields);
        self.fields = self.fields.wrapping_add(1);
        let part = PartIn {
            line: self.line,
            key_left,
            left,
        };
        let (part, used) = place_field(part, self.room, self.used, key, value);
        self.used = used;
        if place < self.parts.len() {
            self.parts[place] = part;
        }
    }

    #[inline(always)]
    fn end(&mut self, series: &'a str, timestamp: Option<i64>, is_base: bool) {
        self.timestamp = timestamp;
    }

    #[inline(always)]
    fn fault(&mut self, fault: SpelledFault<'a>) {
        self.fault = Some(fault);
    }
}

// Tells what the line says, which is a trimmed text, and gives what is left where reading it stops, if it is at fault and that was seen.
#[inline(always)]
fn tell_line<'l, 'a>(placing: &mut Placing<'l, 'a>) -> Option<&'a str>
    requires short { length placing.old.line.line.now < 2 ^ 63 }
    requires no_fault { placing.old.fault ≡ None }
    ensures parts { placing.new.parts.ghost_name ≡ placing.old.parts.ghost_name }
    ensures room { placing.new.room.ghost_name ≡ placing.old.room.ghost_name }
    ensures size { length placing.new.parts.now ≡ length placing.old.parts.now }
    ensures grows { Grows placing.old.room.now placing.old.used placing.new.room.now placing.new.used }
    ensures bound { length placing.old.room.now < 2 ^ 32 → (read : Line) → answer (rules_of placing.old.line.rules) placing.old.line.line.now
        ≡ Ok read → placing.new.used ≤ placing.old.used + texts_len read }
    ensures told { ToldAnswer (answer (rules_of placing.old.line.rules) placing.old.line.line.now) placing.new.fault placing.old.line.text.now
        placing.new.parts.now placing.new.room.now placing.old.used (told_of placing.new) }
    ensures stop { IsStopOf (rules_of placing.old.line.rules) placing.old.line.line.now result }
{
    read_placed_events(placing.line.rules, placing.line.line, placing)
}

// Gives back what was lent. This changes nothing; it is where the loans end, so that the caller knows what they leave.
#[inline(always)]
fn give_back(parts: &mut [OffsetPart], room: &mut [u8])
    ensures parts { parts.new ≡ parts.old }
    ensures room { room.new ≡ room.old }
{}

// Puts down what a line says, as far as it fits: its parts from the first place on, and what is put into the room after so many bytes. Gives
// what was told of it, and what is left where reading it stops, if it is at fault and that was seen.
#[inline(always)]
pub(crate) fn put_told<'a>(
    line: LineIn<'a>,
    parts: &mut [OffsetPart],
    room: &mut [u8],
    used: usize,
) -> (Told<'a>, Option<&'a str>)
    requires { length line.line.now < 2 ^ 63 }
    ensures size { length parts.new ≡ length parts.old }
    ensures grows { Grows room.old used room.new result.0.used }
    ensures bound { length room.old < 2 ^ 32 → (read : Line) → answer (rules_of line.entry.rules) line.entry.line.now ≡ Ok read
        → result.0.used ≤ used + texts_len read }
    ensures told { ToldAnswer (answer (rules_of line.entry.rules) line.entry.line.now) result.0.fault line.entry.text.now
        parts.new room.new used result.0 }
    ensures stop { IsStopOf (rules_of line.entry.rules) line.entry.line.now result.1 }
{
    let mut placing = Placing {
        line,
        parts,
        room,
        used,
        tags: 0,
        fields: 0,
        name: NOWHERE,
        timestamp: None,
        fault: None,
    };
    let stop = tell_line(&mut placing);
    let Placing {
        parts,
        room,
        used,
        tags,
        fields,
        name,
        timestamp,
        fault,
        ..
    } = placing;
    give_back(parts, room);
    let told = Told {
        tags,
        fields,
        used,
        name,
        timestamp,
        fault,
    };
    (told, stop)
}
