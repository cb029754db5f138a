//! The heap: what objects take, which numbers they have, and what their words are.

ghost use Rattle.std.specs.Prelude.{◌<◌};
ghost use Rattle.scw_heap.specs.Heap.{limit_of};

use scw_heap::{Heap, Kind, Ref, units_of};
use scw_rows::{Stop, Subject};
use scw_text::NoMemory;
use std::alloc::Global;
use std::fmt::Write;

fn kind_of(name: &str) -> Kind {
    match name {
        "text" => Kind::Text,
        "booleans" => Kind::Booleans,
        "chars" => Kind::Chars,
        "ints" => Kind::Ints,
        "longs" => Kind::Longs,
        "references" => Kind::Refs(7),
        _ => Kind::Object(7),
    }
}

/// A kind and a number of words; the units that such an object takes.
#[derive(Drop)]
pub struct Sizes;

impl Subject for Sizes {
    fn answer(&mut self, alloc: Global, cells: &[String]) -> Result<String, Stop> {
        let [kind, words] = cells else {
            return Ok(String::new(alloc));
        };
        let words = words.as_str().parse::<u32>().unwrap_or(0);
        let units = units_of(kind_of(kind.as_str()), words);
        Ok(format!(in alloc; "{units}")?)
    }
}

/// A heap of so many units, or the end of the trial where there is no memory for it.
fn heap_of(alloc: Global, units: u32) -> Result<Heap, Stop> {
    match Heap::new(alloc, units) {
        Ok(heap) => Ok(heap),
        Err(NoMemory) => Err(Stop::NoMemory),
    }
}

/// Makes an object, and says with which number, or that there is no room.
fn put_made(heap: &mut Heap, kind: Kind, words: u32, text: &mut String) -> Result<(), Stop> {
    match heap.make(kind, words) {
        Ok(Ref(number)) => Ok(write!(text, "{number} ")?),
        Err(_) => Ok(write!(text, "full ")?),
    }
}

/// Says which number is that of an object, of which kind, and of how many words.
fn put_object(heap: &Heap, number: u64, text: &mut String) -> Result<(), Stop> {
    if !heap.has(number) {
        return Ok(());
    }
    let (kind, words) = (heap.kind(Ref(number)), heap.length(Ref(number)));
    Ok(write!(text, ", at {number} {kind:?} of {words}")?)
}

/// The units of a heap, and objects that are made there, one behind the other; their numbers, how many units are used then,
/// and where objects are.
#[derive(Drop)]
pub struct Makings;

impl Subject for Makings {
    fn answer(&mut self, alloc: Global, cells: &[String]) -> Result<String, Stop> {
        let [units, objects] = cells else {
            return Ok(String::new(alloc));
        };
        let units = units.as_str().parse::<u32>().unwrap_or(0).min(1000);
        let mut heap = heap_of(alloc, units)?;
        let mut text = String::new(alloc);
        for object in objects.as_str().split(", ") {
            let (kind, words) = object.split_once(' ').unwrap_or((object, ""));
            let words = words.parse::<u32>().unwrap_or(0);
            put_made(&mut heap, kind_of(kind), words, &mut text)?;
        }
        write!(text, "used {}", heap.used())?;
        for number in 0..1002 {
            put_object(&heap, number, &mut text)?;
        }
        put_object(&heap, u64::MAX, &mut text)?;
        Ok(text)
    }
}

/// The word, as far as one of the kind has room for it.
fn word_of(kind: Kind, word: u64) -> u64
    ensures { result < limit_of kind }
{
    match kind {
        Kind::Booleans => word % 0x100,
        Kind::Text | Kind::Chars => word % 0x1_0000,
        Kind::Ints => word % 0x1_0000_0000,
        Kind::Object(_) | Kind::Longs | Kind::Refs(_) => word,
    }
}

/// The word of the object with the number, if there is such an object and it has so many.
fn word_at(heap: &Heap, number: u64, i: u32) -> Option<u64> {
    if heap.has(number) && i < heap.length(Ref(number)) {
        Some(heap.get(Ref(number), i))
    } else {
        None
    }
}

/// A kind and a word, which is put as the second of three of an object; the three words then.
#[derive(Drop)]
pub struct Words;

impl Subject for Words {
    fn answer(&mut self, alloc: Global, cells: &[String]) -> Result<String, Stop> {
        let [kind, word] = cells else {
            return Ok(String::new(alloc));
        };
        let kind = kind_of(kind.as_str());
        let word = u64::from_str_radix(word.as_str(), 16).unwrap_or(0);
        let mut heap = heap_of(alloc, 20)?;
        let mut text = String::new(alloc);
        if let Ok(object) = heap.make(kind, 3) {
            heap.set(object, 1, word_of(kind, word));
            for i in 0..3 {
                if i > 0 {
                    text.push(' ')?;
                }
                let word = word_at(&heap, object.0, i).unwrap_or(7);
                write!(text, "{word:x}")?;
            }
        }
        Ok(text)
    }
}
