use crate::notation::skeleton_of;
use crate::walks::{letter_of, longest_words, stops_of, words_to};
use crate::{Completion, Skeleton, SkeletonFault, graph_of};
use es_fork::{Graph, Label};
use es_text::NoMemory;
use std::alloc::{AllocError, Global};
use std::test::Fail;

/// How long words may be, the skeleton, and of the words that are not longer those that end
/// normally or return, those that throw, and the longest ones of runs that are cut off. They were
/// computed from the rules of runs, with no graph.
static ROWS: [(usize, &str, &str, &str, &str); 86] = [
    // each alone
    (3, "a", "a", "", "a"),
    (3, ".N", "_", "", "_"),
    (3, ".R", "_", "", "_"),
    (3, ".T", "", "_", "_"),
    (3, ".B", "", "", "_"),
    (3, ".S", "", "", "_"),
    (3, ":B", "_", "", "_"),
    (3, "()", "_", "", "_"),
    (3, "(a b)", "ab", "", "ab"),
    // after an exit nothing comes
    (3, "(a .R b)", "a", "", "a"),
    (3, "(a .T b)", "", "a", "a"),
    (3, "(a .B b)", "", "", "a"),
    // catch
    (3, "^R .R a", "a", "", "a"),
    (3, "^R (a .R) b", "ab", "", "ab"),
    (3, "^R (a .T) b", "", "a", "a"),
    (3, "^T |(a .T) (b .R) c", "ac b", "", "ac b"),
    (3, "^B (a .D) b", "", "", "a"),
    (3, "^N a (b .T)", "", "ab", "ab"),
    (3, "^Y |.Y .F a", "a", "", "a"),
    (3, "^F ^Y (a |.Y .F) b c", "ab ac", "", "ab ac"),
    (3, "^S (a |.S b) .N", "a ab", "", "ab"),
    // choice
    (3, "|a b", "a b", "", "a b"),
    (3, "(|a .R b)", "_ ab", "", "ab"),
    (3, "(|(a .B) b c)", "bc", "", "a bc"),
    (3, "|.T .R", "_", "_", "_"),
    (4, "(|a b |c d)", "ac ad bc bd", "", "ac ad bc bd"),
    // loop
    (4, "*a", "", "", "aaaa"),
    (4, "*(a |.N .B)", "", "", "aaaa"),
    (4, "^B *(a |.N .B) b", "aaab aab ab", "", "aaaa aaab aab ab"),
    (4, "^B *(|a .B) .N", "_ a aa aaa aaaa", "", "aaaa"),
    (
        6,
        "^B *(^C (a |.N .C b) .N c |.N .B) .N",
        "abc abcabc abcac ac acabc acac acacac",
        "",
        "abcabc abcaca acabca acacab acacac",
    ),
    (
        5,
        "*(a |.N |.B |.D |.C |.R |.T .S)",
        "a aa aaa aaaa aaaaa",
        "a aa aaa aaaa aaaaa",
        "aaaaa",
    ),
    (4, "*.N", "", "", "_"),
    (4, "*.R", "_", "", "_"),
    (4, "(*(a .R) b)", "a", "", "a"),
    (
        4,
        "^B *(*(a |.N .B)) b",
        "aaab aab ab",
        "",
        "aaaa aaab aab ab",
    ),
    (
        6,
        "^B *(a ^D *(b |.N |.D .B) c) d",
        "abbbbd abbbd abbd abcabd abd",
        "",
        "abbbbb abbbbc abbbbd abbbca abbbd abbcab abbd abcabb abcabc abcabd abd",
    ),
    // list with entries
    (3, "(:B a)", "a", "", "a"),
    (4, "((a .B) b :B c)", "ac", "", "ac"),
    (4, "(|.B .D a :D b :B c)", "bc c", "", "bc c"),
    (
        6,
        "^E (t |.B .N u |.D .E :B a :D b) .N",
        "tab tu tub",
        "",
        "tab tub",
    ),
    (5, "^D (.B :B a |.N .D b) c", "ab ac", "", "ab ac"),
    (3, "(.B :D a)", "", "", "_"),
    // finalizer
    (3, "/a b", "ab", "", "ab"),
    (3, "/(a .R) b", "ab", "", "ab"),
    (3, "/(a .T) b", "", "ab", "ab"),
    (3, "/(a .B) b", "", "", "ab"),
    (3, "^B /(a .B) b c", "abc", "", "abc"),
    (4, "/(a |.N .T) b", "ab", "ab", "ab"),
    (4, "/(a |.R .T) b", "ab", "ab", "ab"),
    (4, "/(a .T) (b .R)", "ab", "", "ab"),
    (4, "/(a .R) (b .T)", "", "ab", "ab"),
    (4, "/(a .R) |b (c .T)", "ab", "ac", "ab ac"),
    (4, "/|.B .D a", "", "", "a"),
    (4, "^D ^B /|.B .D a b c", "ab ac", "", "ab ac"),
    (4, "/*a b", "", "", "aaaa"),
    (4, "(a /*b c d)", "", "", "abbb"),
    (4, "/^T (a |.N .T) b c", "abc ac", "", "abc ac"),
    (4, "/(a |.N .T) *(b |.N .R)", "ab abb abbb", "", "abbb"),
    (
        6,
        "^B *(/(a |.N |.B .C) b) c",
        "ababc abc",
        "",
        "ababab ababc abc",
    ),
    (
        6,
        "^B *^C /(a |.N |.B .C) b .N c",
        "ababc abc",
        "",
        "ababab ababc abc",
    ),
    (6, "*(/(a |.N .R) |b .B)", "ab abab ababab", "", "ababab"),
    // finalizers in finalizers
    (4, "/(a .R) /b c", "abc", "", "abc"),
    (4, "/(a .R) /(b .T) c", "", "abc", "abc"),
    (4, "/(a .R) /(b .T) (c .R)", "abc", "", "abc"),
    (5, "//(a |.N .T) b c", "abc", "abc", "abc"),
    (5, "//(a |.R .T) b /c d", "abcd", "abcd", "abcd"),
    (6, "///(a |.N .T) b c d", "abcd", "abcd", "abcd"),
    (6, "/(a |.N .R) /(b |.N .T) /c d", "abcd", "abcd", "abcd"),
    (
        6,
        "^T ///(a |.N .T) b (c |.N .T) d e",
        "abcd abcde",
        "",
        "abcde",
    ),
    // list, choice, loop and catch in a finalizer
    (5, "/(a |.N .R) (b |c d)", "abc abd", "", "abc abd"),
    (
        5,
        "/.T ^B *(b |.N .B) c",
        "",
        "bbbbc bbbc bbc bc",
        "bbbbb bbbbc bbbc bbc bc",
    ),
    (5, "/|.R .T ^R (b |.N .R) c", "b bc", "b bc", "bc"),
    (5, "(/(a |.N .B) b c :B d)", "abcd abd", "", "abcd abd"),
    // what is left of every part in every other
    (4, "^B **|a .B b", "aaab aab ab b", "", "aaaa aaab aab ab b"),
    (4, "^B */(a |.N .B) b c", "abc", "", "abab abc"),
    (4, "*|a .R", "_ a aa aaa aaaa", "", "aaaa"),
    (4, "/(a .R) .N", "a", "", "a"),
    (4, "/(a .R) .T", "", "a", "a"),
    (4, "^N a *(b |.N .R)", "ab abb abbb", "", "abbb"),
    (4, "^R (a .R) /(b .R) c", "abc", "", "abc"),
    (4, "^T (a .T) ^R (b .R) c", "abc", "", "abc"),
    (4, "^T (a .T) |b (c .T)", "ab", "ac", "ab ac"),
    (4, "|*(a .R) /(b .R) c", "a bc", "", "a bc"),
    (4, "|^T (a .T) b c", "ab c", "", "ab c"),
    // all ends of a loop, each with what follows it
    (
        4,
        "^S ^C ^B *(a |.N |.B |.C |.R |.T .S) b c d",
        "a aa aaa aaaa aaab aaac aaad aab aac aad ab ac ad",
        "a aa aaa aaaa",
        "aaaa aaab aaac aaad aab aac aad ab ac ad",
    ),
];

#[test]
fn words(rt: HostRuntime) -> Result<(), Fail> {
    for row in ROWS.iter() {
        let (most, text, returned, thrown, cut) = *row;
        let skeleton = skeleton_of(rt.alloc(), text)?;
        let graph = graph_of(rt.alloc(), &skeleton).ok().ok_or("no graph")?;
        let stops = stops_of(&rt, rt.alloc(), &graph, most)?;
        let ended = words_to(rt.alloc(), &stops, graph.returned())?;
        assert_eq!(rt; ended.as_str(), returned, "returned by {text}");
        let failed = words_to(rt.alloc(), &stops, graph.thrown())?;
        assert_eq!(rt; failed.as_str(), thrown, "thrown by {text}");
        let begun = longest_words(rt.alloc(), &stops)?;
        assert_eq!(rt; begun.as_str(), cut, "cut off in {text}");
    }
    Ok(())
}

/// One of so many breaks, each with a target of its own.
fn breaks(alloc: Global, count: u32) -> Result<Skeleton, NoMemory> {
    let mut skeleton = Skeleton::Exit(Completion::Break(0));
    for target in 1..count {
        let other = Skeleton::Exit(Completion::Break(target));
        skeleton = Skeleton::choice(alloc, other, skeleton)?;
    }
    Ok(skeleton)
}

/// The breaks, and a finalizer with the label `a` and, behind other breaks, a finalizer of its own.
fn nested(alloc: Global, outer: u32, inner: u32) -> Result<Skeleton, NoMemory> {
    let last = skeleton_of(alloc, "(b c)")?;
    let mut parts = Vec::new(alloc);
    parts.push(skeleton_of(alloc, "a")?)?;
    parts.push(Skeleton::finally(alloc, breaks(alloc, inner)?, last)?)?;
    Skeleton::finally(alloc, breaks(alloc, outer)?, Skeleton::list(parts))
}

fn answer(alloc: Global, made: Result<Graph, SkeletonFault>) -> Result<String, AllocError> {
    match made {
        Ok(_) => format!(in alloc; "a graph"),
        Err(SkeletonFault::TooWide { label, copies }) => {
            let letter = letter_of(label);
            format!(in alloc; "{copies} of {letter}")
        }
        Err(SkeletonFault::NoMemory) => format!(in alloc; "no memory"),
    }
}

// How many breaks wait for the outer and the inner finalizer, and what comes of it.
static WIDTHS: [(u32, u32, &str); 6] = [
    (64, 1, "a graph"),
    (65, 1, "65 of a"),
    (1, 64, "a graph"),
    (1, 65, "65 of b"),
    (8, 8, "a graph"),
    (8, 9, "72 of b"),
];

#[test]
fn widths(rt: HostRuntime) -> Result<(), Fail> {
    for row in WIDTHS.iter() {
        let (outer, inner, answered) = *row;
        let skeleton = nested(rt.alloc(), outer, inner)?;
        let made = graph_of(rt.alloc(), &skeleton);
        assert_eq!(rt; answer(rt.alloc(), made)?.as_str(), answered);
    }
    Ok(())
}
