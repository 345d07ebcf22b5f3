//! The words of a graph's walks, for tests. Each label is a letter, by the number of its node.

use es_fork::{Graph, Label, Segment, SegmentId};
use es_text::NoMemory;
use std::alloc::Global;
use std::process::Abort;

/// The most walks that are followed.
const MOST_STOPS: usize = 10_000;

/// Where a walk has come to: the segment, and the word, which may be cut off.
#[derive(Drop)]
pub struct Stop {
    segment: SegmentId,
    word: String,
    whole: bool,
}

/// The letter of a label.
pub fn letter_of(label: Label) -> char {
    if let Label::Enter(letter) = label {
        if let Ok(byte) = u8::try_from(letter) {
            return char::from(byte);
        }
    }
    '?'
}

/// Adds the segment's letters to the word, up to its most, and says whether they are all there.
fn add_letters(word: &mut String, segment: &Segment, most: usize) -> Result<bool, NoMemory> {
    for label in segment.labels.as_slice() {
        if word.len() >= most {
            return Ok(false);
        }
        word.push(letter_of(*label))?;
    }
    Ok(true)
}

fn segment_of<'a>(rt: &impl Abort, graph: &'a Graph, id: SegmentId) -> &'a Segment {
    assert!(rt; id.number >= 1);
    assert!(rt; id.number <= graph.count());
    graph.segment(id)
}

fn has_stop(stops: &[Stop], id: SegmentId, word: &str, whole: bool) -> bool {
    for stop in stops {
        if stop.segment.number == id.number && stop.word.as_str() == word && stop.whole == whole {
            return true;
        }
    }
    false
}

/// A walk with the word goes on to the segment.
fn arrive(
    rt: &impl Abort,
    alloc: Global,
    graph: &Graph,
    stops: &mut Vec<Stop>,
    id: SegmentId,
    before: &str,
    most: usize,
) -> Result<(), NoMemory> {
    let mut word = String::new(alloc);
    word.push_str(before)?;
    let whole = add_letters(&mut word, segment_of(rt, graph, id), most)?;
    if !has_stop(stops, id, word.as_str(), whole) {
        stops.push(Stop {
            segment: id,
            word,
            whole,
        })?;
    }
    Ok(())
}

/// The walk of this stop goes on to each next segment.
fn follow(
    rt: &impl Abort,
    alloc: Global,
    graph: &Graph,
    stops: &mut Vec<Stop>,
    index: usize,
    most: usize,
) -> Result<(), NoMemory> {
    let Some(stop) = stops.get(index) else {
        return Ok(());
    };
    if !stop.whole {
        return Ok(());
    }
    let mut word = String::new(alloc);
    word.push_str(stop.word.as_str())?;
    let segment = segment_of(rt, graph, stop.segment);
    for id in segment.next.as_slice() {
        arrive(rt, alloc, graph, stops, *id, word.as_str(), most)?;
    }
    Ok(())
}

/// All stops of walks, with words of at most so many letters.
pub fn stops_of(
    rt: &impl Abort,
    alloc: Global,
    graph: &Graph,
    most: usize,
) -> Result<Vec<Stop>, NoMemory> {
    let mut stops = Vec::new(alloc);
    arrive(rt, alloc, graph, &mut stops, graph.initial(), "", most)?;
    for index in 0..MOST_STOPS {
        if index >= stops.len() {
            break;
        }
        follow(rt, alloc, graph, &mut stops, index, most)?;
    }
    assert!(rt; stops.len() < MOST_STOPS);
    Ok(stops)
}

fn put_word(alloc: Global, words: &mut Vec<String>, word: &str) -> Result<(), NoMemory> {
    for other in words.iter() {
        if other.as_str() == word {
            return Ok(());
        }
    }
    let mut copy = String::new(alloc);
    copy.push_str(word)?;
    words.push(copy)?;
    Ok(())
}

/// The words in order, separated by spaces; `_` is the empty word.
fn joined(alloc: Global, words: Vec<String>) -> Result<String, NoMemory> {
    let mut sorted = words;
    sorted.sort()?;
    let mut text = String::new(alloc);
    for word in &sorted {
        if !text.is_empty() {
            text.push_str(" ")?;
        }
        text.push_str(if word.is_empty() { "_" } else { word.as_str() })?;
    }
    Ok(text)
}

fn is_one(ids: &[SegmentId], id: SegmentId) -> bool {
    for other in ids {
        if other.number == id.number {
            return true;
        }
    }
    false
}

/// The words of the walks that end in one of the segments.
pub fn words_to(alloc: Global, stops: &[Stop], ids: &[SegmentId]) -> Result<String, NoMemory> {
    let mut words = Vec::new(alloc);
    for stop in stops {
        if stop.whole && is_one(ids, stop.segment) {
            put_word(alloc, &mut words, stop.word.as_str())?;
        }
    }
    joined(alloc, words)
}

fn goes_on(stops: &[Stop], word: &str) -> bool {
    for stop in stops {
        let other = stop.word.as_str();
        if other.len() > word.len() && other.starts_with(word) {
            return true;
        }
    }
    false
}

/// The words of walks that no other walk's word begins with.
pub fn longest_words(alloc: Global, stops: &[Stop]) -> Result<String, NoMemory> {
    let mut words = Vec::new(alloc);
    for stop in stops {
        if !goes_on(stops, stop.word.as_str()) {
            put_word(alloc, &mut words, stop.word.as_str())?;
        }
    }
    joined(alloc, words)
}
