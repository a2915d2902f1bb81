//! The examples of the calls of prefixes_core, as the documentation has them.

ghost use Rattle.std.specs.Prelude.{if◌then◌else◌, None, Some, codes};
ghost use Rattle.std.specs.Str.{bytes_eq};

use patricia_tree::{StringPatriciaMap, StringPatriciaSet};
use prefixes_core::listing::{Destination, Values, read_list};
use prefixes_core::{
    BlockList, Combination, Inputs, LineFormat, NetworkError, Networks, Opens, Payload,
    SearchedNames, UnpackError, answer_all, combine, command, complete, draw, drop_subtree,
    first_completions, lines_of, measure, near, network_of, pack, pack_names, parse_network,
    segment, subtree, unpack,
};
use std::alloc::Global;
use std::fmt::Debug;
use std::io::{self, ErrorKind};
use std::net::{IpAddr, Ipv4Addr};
use std::process::Abort;

// What a call gave. Ends the test if it gave an error.
fn done<T: Drop, E: Debug + Drop>(rt: &impl Abort, got: Result<T, E>) -> T {
    match got {
        Ok(value) => value,
        Err(error) => panic!(rt; "refused: {error:?}"),
    }
}

// A map of these entries.
fn map_of<V: Copy + Drop>(
    rt: &impl Abort,
    alloc: Global,
    entries: &[(&str, V)],
) -> StringPatriciaMap<V> {
    let mut map = StringPatriciaMap::new(alloc);
    for (key, value) in entries {
        assert!(rt; map.insert(*key, *value).is_ok());
    }
    map
}

// A set of these elements.
fn set_of(rt: &impl Abort, alloc: Global, elements: &[&str]) -> StringPatriciaSet {
    let mut set = StringPatriciaSet::new(alloc);
    for element in elements {
        done(rt, set.insert(*element));
    }
    set
}

#[test]
fn segment_example(rt: HostRuntime) {
    // example: prefixes segment
    let words = [("app", ()), ("apple", ()), ("pie", ())];
    let dictionary = map_of(&rt, rt.alloc(), &words);
    let pieces = done(&rt, segment(rt.alloc(), &dictionary, "xapplepie"));
    assert_eq!(rt; pieces.as_slice(), ["x", "apple", "pie"].as_slice());
    // end
}

#[test]
fn complete_example(rt: HostRuntime) {
    // example: prefixes complete
    let map = map_of(&rt, rt.alloc(), &[("foo", 1), ("bar", 2), ("baz", 3)]);
    let completions = done(&rt, complete(rt.alloc(), &map, "ba", 1));
    assert_eq!(rt; completions.first.len(), 1);
    assert_eq!(rt; completions.first[0].0.as_str(), "bar");
    assert_eq!(rt; completions.count, 2);
    // end
}

#[test]
fn first_completions_example(rt: HostRuntime) {
    // example: prefixes first_completions
    let map = map_of(&rt, rt.alloc(), &[("foo", 1), ("bar", 2), ("baz", 3)]);
    let first = done(&rt, first_completions(rt.alloc(), &map, "ba", 1));
    assert_eq!(rt; first.len(), 1);
    assert_eq!(rt; first[0].0.as_str(), "bar");
    // end
}

#[test]
fn near_example(rt: HostRuntime) {
    // example: prefixes near new
    let names = map_of(&rt, rt.alloc(), &[("bat", ()), ("bar", ())]);
    let searched = done(&rt, SearchedNames::new(names));
    let found = done(&rt, near(rt.alloc(), &searched, "bat", 1, 10));
    assert_eq!(rt; found.first.len(), 2);
    assert_eq!(rt;
        (found.first[0].name.as_str(), found.first[0].edits),
        ("bat", 0)
    );
    // end
}

#[test]
fn measure_example(rt: HostRuntime) {
    // example: prefixes measure
    let names = map_of(&rt, rt.alloc(), &[("bar", ()), ("baz", ()), ("foo", ())]);
    let measures = done(&rt, measure(&names));
    assert_eq!(rt; (measures.names, measures.name_bytes), (3, 9));
    assert_eq!(rt; (measures.nodes, measures.label_bytes), (5, 7));
    assert_eq!(rt; (measures.tree_bytes, measures.depth), (27, 2));
    // end
}

#[test]
fn draw_example(rt: HostRuntime) {
    // example: prefixes draw
    let names = map_of(&rt, rt.alloc(), &[("bar", ()), ("baz", ()), ("foo", ())]);
    let nodes = done(&rt, draw(rt.alloc(), names, "b"));
    assert_eq!(rt; nodes.len(), 4);
    assert_eq!(rt; nodes[1].label.as_bytes(), b"ba".as_slice());
    assert!(rt; !nodes[1].is_name);
    assert_eq!(rt; nodes[2].label.as_bytes(), b"r".as_slice());
    assert_eq!(rt; (nodes[2].level, nodes[2].is_name), (2, true));
    // end
}

#[test]
fn combine_example(rt: HostRuntime) {
    // example: prefixes combine
    let one = set_of(&rt, rt.alloc(), &["foo", "bar"]);
    let other = set_of(&rt, rt.alloc(), &["bar", "baz"]);
    assert_eq!(rt;
        done(&rt, combine(Combination::Union, &one, &other)).len(),
        3
    );
    assert!(rt; done(&rt, combine(Combination::Intersection, &one, &other)).contains("bar"));
    assert!(rt; done(&rt, combine(Combination::Difference, &one, &other)).contains("foo"));
    // end
}

#[test]
fn lines_of_example(rt: HostRuntime) {
    // example: prefixes lines_of
    let names = set_of(&rt, rt.alloc(), &["foo", "bar"]);
    let format = LineFormat {
        end: b'\n',
        keeps_cr: false,
    };
    let lines = done(&rt, lines_of(rt.alloc(), &names, format));
    assert_eq!(rt; lines.as_slice(), b"bar\nfoo\n".as_slice());
    // end
}

// Names that are read of the lines that they are written as.
fn check_read_back(rt: &impl Abort, alloc: Global, format: LineFormat, written: &[u8]) {
    let names = set_of(rt, alloc, &["", "bar", "foo bar", "\u{5317}\u{4eac}"]);
    let lines = done(rt, lines_of(alloc, &names, format));
    assert_eq!(rt; lines.as_slice(), written);
    let mut read = StringPatriciaSet::new(alloc);
    let mut progress: Option<Vec<u8>> = None;
    done(
        rt,
        read_list(
            alloc,
            lines.as_slice(),
            Values::Optional,
            format,
            &mut progress,
            &mut read,
        ),
    );
    assert_eq!(rt; read.len(), 4);
    for name in ["", "bar", "foo bar", "\u{5317}\u{4eac}"] {
        assert!(rt; read.contains(name));
    }
}

#[test]
fn lines_are_read_back(rt: HostRuntime) {
    let mut format = LineFormat {
        end: b'\n',
        keeps_cr: false,
    };
    let written = b"\t\nbar\nfoo bar\n\xe5\x8c\x97\xe4\xba\xac\n";
    check_read_back(&rt, rt.alloc(), format, written.as_slice());
    format.end = 0;
    let written = b"\t\0bar\0foo bar\0\xe5\x8c\x97\xe4\xba\xac\0";
    check_read_back(&rt, rt.alloc(), format, written.as_slice());
}

#[test]
fn block_list_new(rt: HostRuntime) {
    // example: block_list new
    let list = BlockList::new(rt.alloc());
    assert_eq!(rt; done(&rt, list.find(b"example.com".as_slice())), None);
    // end
}

#[test]
fn block_list_add(rt: HostRuntime) {
    // example: block_list add
    let mut list = BlockList::new(rt.alloc());
    assert!(rt; done(&rt, list.add(b"tracker.net".as_slice())));
    assert!(rt; !done(&rt, list.add(b"tracker.net".as_slice())));
    // end
}

#[test]
fn block_list_find(rt: HostRuntime) {
    // example: block_list find
    let mut list = BlockList::new(rt.alloc());
    done(&rt, list.add(b"net".as_slice()));
    done(&rt, list.add(b"tracker.net".as_slice()));
    let found = done(&rt, list.find(b"cdn.tracker.net".as_slice()));
    assert_eq!(rt; found, Some(b"tracker.net".as_slice()));
    assert_eq!(rt; done(&rt, list.find(b"mytracker.org".as_slice())), None);
    // end
}

#[test]
fn subtree_example(rt: HostRuntime) {
    // example: prefixes subtree
    let entries = [("log", 1), ("log.level", 2), ("logs", 3)];
    let names = map_of(&rt, rt.alloc(), &entries);
    let entries = done(&rt, subtree(rt.alloc(), &names, "log"));
    assert_eq!(rt; entries.len(), 2);
    assert_eq!(rt; entries[1].0.as_str(), "log.level");
    // end
}

#[test]
fn drop_subtree_example(rt: HostRuntime) {
    // example: prefixes drop_subtree
    let entries = [("log", 1), ("log.level", 2), ("logs", 3)];
    let mut names = map_of(&rt, rt.alloc(), &entries);
    done(&rt, drop_subtree(rt.alloc(), &mut names, "log"));
    assert_eq!(rt; names.len(), 1);
    // end
}

#[test]
fn parse_network_example(rt: HostRuntime) {
    // example: prefixes parse_network
    let address = IpAddr::V4(Ipv4Addr::new(10, 1, 2, 3));
    assert_eq!(rt; parse_network("10.1.2.3/8"), Ok((address, 8)));
    assert_eq!(rt; parse_network("10.1.2.3"), Ok((address, 32)));
    assert_eq!(rt; parse_network("10.1.2.3/33"), Err(NetworkError::NoLength));
    // end
}

#[test]
fn network_of_example(rt: HostRuntime) {
    // example: prefixes network_of
    let mut table = Networks::new(rt.alloc());
    done(
        &rt,
        table.add_entry(rt.alloc(), "10.0.0.0/8", b"ten".as_slice()),
    );
    done(&rt, table.add_entry(rt.alloc(), "::/0", b"six".as_slice()));
    let address = IpAddr::V4(Ipv4Addr::new(10, 1, 2, 3));
    let found = done(&rt, network_of(rt.alloc(), &table, address));
    assert!(rt; found.is_some_and(|network| network.target.as_bytes() == b"ten".as_slice()));
    // end
}

#[test]
fn pack_example(rt: HostRuntime) {
    // example: prefixes pack
    let mut list = StringPatriciaMap::new(rt.alloc());
    done(
        &rt,
        list.insert("foo", done(&rt, Payload::new(rt.alloc(), b"1".as_slice()))),
    );
    let bytes = done(&rt, pack(rt.alloc(), &list));
    assert!(rt; bytes.starts_with(b"prefixes".as_slice()));
    assert_eq!(rt; done(&rt, unpack(rt.alloc(), &bytes)).len(), 1);
    // end
}

#[test]
fn pack_names_example(rt: HostRuntime) {
    // example: prefixes pack_names
    let names = set_of(&rt, rt.alloc(), &["foo", "bar"]);
    let list = done(
        &rt,
        unpack(rt.alloc(), &done(&rt, pack_names(rt.alloc(), &names))),
    );
    assert!(rt;
        list.get("foo")
            .is_some_and(|value| value.as_bytes().is_empty())
    );
    // end
}

#[test]
fn unpack_example(rt: HostRuntime) {
    // example: prefixes unpack
    let cut = unpack(rt.alloc(), b"prefixes\x01\0\0".as_slice());
    assert!(rt; matches!(cut, Err(UnpackError::Truncated(9))));
    // end
}

#[test]
fn payload_new(rt: HostRuntime) {
    // example: payload new
    let payload = done(&rt, Payload::new(rt.alloc(), b"on".as_slice()));
    assert_eq!(rt; payload.as_bytes(), b"on".as_slice());
    // end
}

#[test]
fn payload_as_bytes(rt: HostRuntime) {
    // example: payload as_bytes
    let payload = done(&rt, Payload::new(rt.alloc(), b"".as_slice()));
    assert!(rt; payload.as_bytes().is_empty());
    // end
}

// A list and lines in memory, as files of these names.
#[derive(Clone, Copy)]
struct Shelf<'a> {
    list: &'a [u8],
    lines: &'a [u8],
}

impl<'a> Opens for Shelf<'a> {
    type File = &'a [u8];

    ghost content = { λ shelf path. if bytes_eq path (codes "list") then Some shelf.list.now
        else if bytes_eq path (codes "lines") then Some shelf.lines.now else None };

    fn open_to_read(&self, path: &str) -> io::Result<&'a [u8]> {
        match path {
            "list" => Ok(self.list),
            "lines" => Ok(self.lines),
            _ => Err(io::Error::from(ErrorKind::NotFound)),
        }
    }
}

// What a command answers to the lines of a shelf about its list.
fn answered_on(rt: &impl Abort, alloc: Global, shelf: &Shelf<'_>, words: &[&str]) -> Vec<u8> {
    let matches = done(rt, done(rt, command(alloc)).try_get_matches_from(words));
    let mut output = Vec::new(alloc);
    let mut inputs = Inputs {
        rt: shelf,
        alloc,
        standard: None::<&[u8]>,
        progress: None::<Vec<u8>>,
        format: LineFormat {
            end: b'\n',
            keeps_cr: false,
        },
    };
    if let Some((name, matches)) = matches.subcommand() {
        let found = done(rt, answer_all(&mut inputs, name, matches, &mut output));
        assert!(rt; found);
    }
    output
}

#[test]
fn lines_are_answered_about_a_list_in_memory(rt: HostRuntime) {
    let words = [
        "prefixes", "complete", "list", "--lines", "lines", "-n", "1",
    ];
    let lines = Shelf {
        list: b"\xef\xbb\xbffoo\nbar\t1\r\nbaz\n",
        lines: b"ba\nx\n",
    };
    let answer = answered_on(&rt, rt.alloc(), &lines, &words);
    assert_eq!(rt; answer.as_slice(), b"ba\t2\n\tbar\nx\t0\n".as_slice());
    let names = set_of(&rt, rt.alloc(), &["foo", "bar", "baz", ""]);
    let packed = done(&rt, pack_names(rt.alloc(), &names));
    let shelf = Shelf {
        list: &packed,
        lines: b"\nf",
    };
    let answer = answered_on(&rt, rt.alloc(), &shelf, &words);
    assert_eq!(rt; answer.as_slice(), b"\t4\n\t\nf\t1\n\tfoo\n".as_slice());
}
