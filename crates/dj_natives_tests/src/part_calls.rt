use crate::calls::{are_asked, are_done, are_made};
use crate::few::Few;
use crate::rows::After::Any;
use crate::rows::Argument::{Int, Long, Null, Numbers, Same, Text};
use crate::rows::WantedAnswer::{Full, GivesChars, GivesText, Raises, Stops};
use crate::rows::{AskedCall, LimitedCall, MakingCall};
use dj_names::NativeId::{
    StringConcat, StringSubstring, StringSubstringFrom, StringToCharArray, StringValueOfBoolean,
    StringValueOfChar, StringValueOfChars, StringValueOfInt, StringValueOfLong,
};
use dj_names::{Element, Raised};

// Parts and sums of texts.
const PARTS: [AskedCall; 12] = [
    (
        StringConcat,
        &[Text(b"ab"), Text(b"")],
        GivesText(1, b"ab"),
        40,
    ),
    (StringConcat, &[Text(b""), Text(b"")], GivesText(1, b""), 32),
    (
        StringConcat,
        &[Text(b"ab"), Null],
        Raises(Raised::NullPointer),
        24,
    ),
    (
        StringSubstringFrom,
        &[Text(b"hello"), Int(6)],
        Raises(Raised::StringIndexOutOfBounds),
        32,
    ),
    (
        StringSubstringFrom,
        &[Text(b"hello"), Int(-1)],
        Raises(Raised::StringIndexOutOfBounds),
        32,
    ),
    (
        StringSubstringFrom,
        &[Text(b""), Int(1)],
        Raises(Raised::StringIndexOutOfBounds),
        16,
    ),
    (
        StringSubstring,
        &[Text(b"hello"), Int(-1), Int(2)],
        Raises(Raised::StringIndexOutOfBounds),
        32,
    ),
    (
        StringSubstring,
        &[Text(b"hello"), Int(3), Int(2)],
        Raises(Raised::StringIndexOutOfBounds),
        32,
    ),
    (
        StringSubstring,
        &[Text(b"hello"), Int(0), Int(6)],
        Raises(Raised::StringIndexOutOfBounds),
        32,
    ),
    (
        StringSubstring,
        &[Text(b"hello"), Int(6), Int(6)],
        Raises(Raised::StringIndexOutOfBounds),
        32,
    ),
    (
        StringSubstring,
        &[Text(b"hello"), Int(2), Int(-1)],
        Raises(Raised::StringIndexOutOfBounds),
        32,
    ),
    (
        StringSubstring,
        &[Text(b"hello"), Int(i32::MIN), Int(i32::MAX)],
        Raises(Raised::StringIndexOutOfBounds),
        32,
    ),
];

// Parts and sums of texts, which make something.
const PARTS_MADE: [MakingCall; 12] = [
    (
        StringConcat,
        &[Text(b""), Text(b"b")],
        GivesText(3, b"b"),
        (40, 64),
    ),
    (
        StringConcat,
        &[Text(b"ab"), Text(b"cde")],
        GivesText(3, b"abcde"),
        (48, 80),
    ),
    (
        StringConcat,
        &[Text(b"a"), Text(b"a")],
        GivesText(3, b"aa"),
        (48, 72),
    ),
    (
        StringConcat,
        &[Text(b"a"), Same(0)],
        GivesText(2, b"aa"),
        (24, 48),
    ),
    (
        StringSubstringFrom,
        &[Text(b"hello"), Int(0)],
        GivesText(2, b"hello"),
        (32, 64),
    ),
    (
        StringSubstringFrom,
        &[Text(b"hello"), Int(3)],
        GivesText(2, b"lo"),
        (32, 56),
    ),
    (
        StringSubstringFrom,
        &[Text(b"hello"), Int(5)],
        GivesText(2, b""),
        (32, 48),
    ),
    (
        StringSubstringFrom,
        &[Text(b""), Int(0)],
        GivesText(2, b""),
        (16, 32),
    ),
    (
        StringSubstring,
        &[Text(b"hello"), Int(0), Int(5)],
        GivesText(2, b"hello"),
        (32, 64),
    ),
    (
        StringSubstring,
        &[Text(b"hello"), Int(1), Int(3)],
        GivesText(2, b"el"),
        (32, 56),
    ),
    (
        StringSubstring,
        &[Text(b"hello"), Int(5), Int(5)],
        GivesText(2, b""),
        (32, 48),
    ),
    (
        StringSubstring,
        &[Text(b"hello"), Int(0), Int(0)],
        GivesText(2, b""),
        (32, 48),
    ),
];

// Parts and sums of texts, where little is left.
const PARTS_LIMITED: [LimitedCall; 6] = [
    (
        StringConcat,
        (Some(0), 1_000_000),
        &[Text(b""), Text(b"")],
        GivesText(1, b""),
        (32, 32),
        0,
        Any,
    ),
    (
        StringConcat,
        (Some(31), 1_000_000),
        &[Text(b"abcd"), Text(b"e")],
        Stops,
        (48, 48),
        32,
        Any,
    ),
    (
        StringConcat,
        (Some(32), 1_000_000),
        &[Text(b"abcd"), Text(b"e")],
        GivesText(3, b"abcde"),
        (48, 80),
        32,
        Any,
    ),
    (
        StringConcat,
        (Some(1000000), 79),
        &[Text(b"abcd"), Text(b"e")],
        Full(48, 32),
        (48, 48),
        32,
        Any,
    ),
    (
        StringSubstringFrom,
        (Some(0), 1_000_000),
        &[Text(b"hello"), Int(9)],
        Raises(Raised::StringIndexOutOfBounds),
        (32, 32),
        0,
        Any,
    ),
    (
        StringSubstringFrom,
        (Some(15), 1_000_000),
        &[Text(b"hello"), Int(5)],
        Stops,
        (32, 32),
        16,
        Any,
    ),
];

// Texts of values, and the chars of texts.
const VALUES: [AskedCall; 1] = [(StringValueOfChars, &[Null], Raises(Raised::NullPointer), 0)];

// Texts of values, and the chars of texts, which make something.
const VALUES_MADE: [MakingCall; 27] = [
    (
        StringToCharArray,
        &[Text(b"")],
        GivesChars(2, &[]),
        (16, 32),
    ),
    (
        StringToCharArray,
        &[Text(b"a\xef\xbf\xbf")],
        GivesChars(2, &[97, 65535]),
        (24, 48),
    ),
    (
        StringToCharArray,
        &[Text(b"abcde")],
        GivesChars(2, &[97, 98, 99, 100, 101]),
        (32, 64),
    ),
    (
        StringValueOfChars,
        &[Numbers(b"[C", Element::Char, &[])],
        GivesText(2, b""),
        (16, 32),
    ),
    (
        StringValueOfChars,
        &[Numbers(b"[C", Element::Char, &[97, 98])],
        GivesText(2, b"ab"),
        (24, 48),
    ),
    (
        StringValueOfChars,
        &[Numbers(b"[C", Element::Char, &[65535, 0])],
        GivesText(2, b"\xef\xbf\xbf\xc0\x80"),
        (24, 48),
    ),
    (StringValueOfChar, &[Int(97)], GivesText(1, b"a"), (0, 24)),
    (
        StringValueOfChar,
        &[Int(0)],
        GivesText(1, b"\xc0\x80"),
        (0, 24),
    ),
    (
        StringValueOfChar,
        &[Int(65535)],
        GivesText(1, b"\xef\xbf\xbf"),
        (0, 24),
    ),
    (
        StringValueOfChar,
        &[Int(65536)],
        GivesText(1, b"\xc0\x80"),
        (0, 24),
    ),
    (
        StringValueOfChar,
        &[Int(65633)],
        GivesText(1, b"a"),
        (0, 24),
    ),
    (
        StringValueOfChar,
        &[Int(-1)],
        GivesText(1, b"\xef\xbf\xbf"),
        (0, 24),
    ),
    (StringValueOfInt, &[Int(0)], GivesText(1, b"0"), (0, 24)),
    (StringValueOfInt, &[Int(7)], GivesText(1, b"7"), (0, 24)),
    (StringValueOfInt, &[Int(-7)], GivesText(1, b"-7"), (0, 24)),
    (
        StringValueOfInt,
        &[Int(i32::MAX)],
        GivesText(1, b"2147483647"),
        (0, 40),
    ),
    (
        StringValueOfInt,
        &[Int(i32::MIN)],
        GivesText(1, b"-2147483648"),
        (0, 40),
    ),
    (StringValueOfLong, &[Long(0)], GivesText(1, b"0"), (0, 24)),
    (StringValueOfLong, &[Long(-1)], GivesText(1, b"-1"), (0, 24)),
    (
        StringValueOfLong,
        &[Long(i64::MAX)],
        GivesText(1, b"9223372036854775807"),
        (0, 56),
    ),
    (
        StringValueOfLong,
        &[Long(i64::MIN)],
        GivesText(1, b"-9223372036854775808"),
        (0, 56),
    ),
    (
        StringValueOfBoolean,
        &[Int(0)],
        GivesText(1, b"false"),
        (0, 32),
    ),
    (
        StringValueOfBoolean,
        &[Int(1)],
        GivesText(1, b"true"),
        (0, 24),
    ),
    (
        StringValueOfBoolean,
        &[Int(2)],
        GivesText(1, b"false"),
        (0, 32),
    ),
    (
        StringValueOfBoolean,
        &[Int(3)],
        GivesText(1, b"true"),
        (0, 24),
    ),
    (
        StringValueOfBoolean,
        &[Int(-1)],
        GivesText(1, b"true"),
        (0, 24),
    ),
    (
        StringValueOfBoolean,
        &[Int(-2)],
        GivesText(1, b"false"),
        (0, 32),
    ),
];

// Texts of values, and the chars of texts, where little is left.
const VALUES_LIMITED: [LimitedCall; 2] = [
    (
        StringToCharArray,
        (Some(31), 1_000_000),
        &[Text(b"abcde")],
        Stops,
        (32, 32),
        32,
        Any,
    ),
    (
        StringToCharArray,
        (Some(1000000), 63),
        &[Text(b"abcde")],
        Full(32, 32),
        (32, 32),
        32,
        Any,
    ),
];

#[test]
fn texts_are_cut_and_joined(rt: HostRuntime) {
    let few = Few { boxed: false };
    assert!(rt; are_asked(rt.alloc(), &few, &PARTS));
    assert!(rt; are_made(rt.alloc(), &few, &PARTS_MADE));
    assert!(rt; are_done(rt.alloc(), &few, &PARTS_LIMITED));
}

#[test]
fn texts_are_made_of_values(rt: HostRuntime) {
    let few = Few { boxed: false };
    assert!(rt; are_asked(rt.alloc(), &few, &VALUES));
    assert!(rt; are_made(rt.alloc(), &few, &VALUES_MADE));
    assert!(rt; are_done(rt.alloc(), &few, &VALUES_LIMITED));
}
