//! What is said of texts that are no patterns.

use crate::words::is_text;
use regex_cursor::syntax::{Config, Explained, Grammar, explain};
use std::alloc::{AllocError, Global};

/// Texts, each with what is wrong, and with which bytes.
const FAULTS: &str = r"(→unclosed group 0..1
(a→unclosed group 0..1
(a)(b→unclosed group 3..4
((a)→unclosed group 0..1
(a(b→unclosed group 2..3
(?:→unclosed group 0..1
(?i→unclosed group 0..1
(?→unclosed group 0..1
[)](]→unclosed group 3..4
)→unopened group 0..1
a)→unopened group 1..2
é)→unopened group 2..3
(a))b→unopened group 3..4
(?>a)→unknown kind of group 0..3
(?#a)→unknown kind of group 0..3
(?'n'a)→unknown kind of group 0..3
(?P>n)→unknown kind of group 0..4
(?=a)→look-around isn't supported 0..3
a(?!b)→look-around isn't supported 1..4
(?<=a)→look-around isn't supported 0..4
(?<!a)b→look-around isn't supported 0..4
(?)a→missing flags 0..3
(?q)a→unknown flag 2..3
(?iq:a)→unknown flag 3..4
(?x)a→the flag x isn't supported 2..3
(?ix:a)→the flag x isn't supported 3..4
(?ii)a→repeated flag 3..4
(?i-i)a→repeated flag 4..5
(?-s-)a→flags are cleared twice 4..5
(?i-)a→no flag is cleared 3..4
(?-)a→no flag is cleared 2..3
(?<>a)→empty group name 2..4
(?P<>a)→empty group name 3..5
(?<9>a)→not allowed in a group name 3..4
(?<n a>b)→not allowed in a group name 4..5
(?<é>b)→not allowed in a group name 3..5
(?P<n→unclosed group name 3..4
(?P<n>a)(?<n>b)→duplicate group name 11..12
*→repetition of nothing 0..1
+a→repetition of nothing 0..1
a|*→repetition of nothing 2..3
(*a)→repetition of nothing 1..2
(?i)?→repetition of nothing 4..5
a||{2}?→repetition of nothing 3..7
{→no counted repetition 0..1
a{→no counted repetition 1..2
a{,2}→no counted repetition 1..2
a{x}→no counted repetition 1..2
a{2x}→no counted repetition 1..2
a{1→unclosed repetition 1..2
a{1,→unclosed repetition 1..2
a{1,2→unclosed repetition 1..2
a{4294967296}→number too large 2..12
a{1,99999999999}→number too large 4..15
a{3,2}→repetition bounds out of order 1..6
[→unclosed list 0..1
a[^b→unclosed list 1..2
[a\]→unclosed list 0..1
[]→empty list 0..2
[^]→empty list 0..3
[a[b]]→nested lists aren't supported 2..3
[[:alpha:]]→POSIX classes aren't supported 1..3
[^[:alpha:]]→POSIX classes aren't supported 2..4
[a&&b]→set operations aren't supported 2..4
[a~~b]→set operations aren't supported 2..4
[a--b]→set operations aren't supported 2..4
[]--a]→set operations aren't supported 2..4
[\&&]→set operations aren't supported 2..4
[\b]→an assertion in a list 1..3
[a\A]→an assertion in a list 2..4
[a-\d]→a class as an end of a range 1..5
[\d-a]→a class as an end of a range 1..5
[z-a]→range out of order 1..4
[é-a]→range out of order 1..5
[a-z\x{7A}-a]→range out of order 4..12
a\→nothing is escaped 1..2
\y→unknown escape 0..2
\é→unknown escape 0..3
[\y]→unknown escape 1..3
\pL→Unicode classes aren't supported 0..3
\p→Unicode classes aren't supported 0..2
\p{Greek}x→Unicode classes aren't supported 0..9
[\P{L}]→Unicode classes aren't supported 1..6
\1→backreferences aren't supported 0..2
(a)\k<n>→backreferences aren't supported 3..5
(?P=n)→backreferences aren't supported 0..4
\xZ→missing hexadecimal digit 2..3
\x4→missing hexadecimal digit 0..3
\u12x4→missing hexadecimal digit 4..5
\x{}→missing hexadecimal digit 3..4
\x{ 41}→missing hexadecimal digit 3..4
\x{D800}→no character has this code 0..8
\uDFFF→no character has this code 0..6
\x{110000}→no character has this code 0..10
\U00110000→no character has this code 0..10
\x{41→unclosed brace 2..3
\b{→unclosed brace 2..3
\b{start→unclosed brace 2..3
\b{word}→unknown kind of word boundary 0..8
(?-u:\xFF)→bytes past ASCII where UTF-8 is asked for 5..9
(?-u).→bytes past ASCII where UTF-8 is asked for 5..6
(?-u:a)(?-u:.)→bytes past ASCII where UTF-8 is asked for 12..13
(?-u)[^a]→bytes past ASCII where UTF-8 is asked for 5..9
(?-u)\W→bytes past ASCII where UTF-8 is asked for 5..7
(?-u)[é]→a character past ASCII in a list of bytes 6..8
a→none
(?i)[]a-]\x41|→none";

/// Texts and their faults where what is no UTF-8 may match, and without `u`.
const BYTES: &str = "[a-é]→a character past ASCII in a list of bytes 3..5";

/// Texts and their faults where the byte 200 ends lines.
const PAST_ASCII: &str = "a.→a line terminator past ASCII is no character 1..2
(?-u:.)→bytes past ASCII where UTF-8 is asked for 5..6";

/// Texts and their faults where patterns may have no level.
const LEVEL_0: &str = r"a→none
ab→patterns nest too deeply 0..2
a*→patterns nest too deeply 0..2
x[a]→patterns nest too deeply 0..4
(?-u)\d→patterns nest too deeply 0..7
(?-u)\W→bytes past ASCII where UTF-8 is asked for 5..7";

/// Texts and their faults where patterns may have one level.
const LEVEL_1: &str = "ab→none
[a]→none
(ab)→patterns nest too deeply 0..3
ab|c→patterns nest too deeply 0..3
x(?:a*)→patterns nest too deeply 0..4
x(?<n>a)→patterns nest too deeply 0..6
((→patterns nest too deeply 0..2
(b|(b|→patterns nest too deeply 0..3
(?<n>)(?<n>)→duplicate group name 9..10";

/// Texts and their faults by the full grammar.
const FULL: &str = r"a[b→unclosed list 1..2
[a[b]→unclosed list 0..1
[[a&&→unclosed list 1..2
[]→empty list 0..2
(?xx)a→repeated flag 3..4
\p{Nope}→unknown property 0..8
\p{sc=Nope}→unknown value of a property 0..11
\p{L→unclosed brace 2..3
(?-u)\pL→a property of characters among bytes 5..8
[\pL-z]→a class as an end of a range 1..6
[\d-é]→a class as an end of a range 1..6
(?x)[a - \d]→a class as an end of a range 5..11
[a[z-a]]→range out of order 3..6
(?x)[\x{E9} - b]→range out of order 5..15
(?<été>a)(?P<été>b)→duplicate group name 15..20
(?-u)[^a]→bytes past ASCII where UTF-8 is asked for 5..9
[a-z&&[\b]]→an assertion in a list 7..9
(?-u)[a\x{E9}]→a character past ASCII in a list of bytes 7..13
a{2, }→no counted repetition 1..2
a{ 3 , 2 }→repetition bounds out of order 1..10
(?x)(a # )→unclosed group 4..5
[\w&&[^\d]]→none";

/// What is said of the text: the fault and its bytes, or `none`.
fn said(alloc: Global, config: &Config, text: &str) -> Result<String, AllocError> {
    let Some(fault) = explain(alloc, text, config)? else {
        return String::from_str(alloc, "none");
    };
    let kind = fault.kind;
    let start = fault.span.start;
    let end = fault.span.end;
    format!(in alloc; "{kind} {start}..{end}")
}

/// The first text of which something else is said than what stands behind its arrow.
fn first_other<'a>(
    alloc: Global,
    config: &Config,
    rows: &'a str,
) -> Result<Option<&'a str>, AllocError> {
    for row in rows.lines() {
        let Some((text, wanted)) = row.split_once('→') else {
            return Ok(Some(row));
        };
        if said(alloc, config, text)?.as_str() != wanted {
            return Ok(Some(row));
        }
    }
    Ok(None)
}

/// Each kind of fault in a row or more, with the opener for what isn't closed.
#[test]
fn faults_are_explained(rt: HostRuntime) {
    let plain = Config::new();
    for (config, rows) in [
        (plain, FAULTS),
        (plain.utf8(false).unicode(false), BYTES),
        (plain.line_terminator(200), PAST_ASCII),
        (plain.nest_limit(0), LEVEL_0),
        (plain.nest_limit(1), LEVEL_1),
        (plain.grammar(Grammar::Full), FULL),
    ] {
        let other = first_other(rt.alloc(), &config, rows);
        assert!(rt; other == Ok(None), "{other:?}");
    }
}

/// How the fault of the text is shown.
fn shown(alloc: Global, text: &str) -> Result<String, AllocError> {
    let Some(fault) = explain(alloc, text, &Config::new())? else {
        return Ok(String::new(alloc));
    };
    let shown = Explained { text, fault };
    format!(in alloc; "{shown}")
}

/// Carets below, also behind a tab and a character of two bytes, and the line alone in which the fault stands.
#[test]
fn faults_are_shown(rt: HostRuntime) {
    let shown_below = shown(rt.alloc(), "é[z-a]b");
    assert!(rt; is_text(shown_below, "range out of order:\n    é[z-a]b\n      ^^^"));
    let shown_in_a_line = shown(rt.alloc(), "a\n\t(b\nc");
    assert!(rt;
        is_text(
            shown_in_a_line,
            "unclosed group in line 2:\n    \t(b\n    \t^"
        )
    );
}
