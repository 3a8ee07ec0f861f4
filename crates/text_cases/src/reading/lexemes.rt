// Texts with their tokens or fault, found by hand from the rules.

/// Each text with its tokens, or its fault with its place. A word is written `w:`, a quoted name `q:`, a string `s:`, a
/// number `n:` and a parameter `p:`, each with what it holds, a sign by its name, and after each token stand its two
/// places.
pub const LEXEMES: &str = r#"
select => w:select 0-6
SELECT v FROM t => w:select 0-6 w:v 7-8 w:from 9-13 w:t 14-15
_a$1 => w:_a$1 0-4
été => w:été 0-5
ÉTÉ Z => w:ÉtÉ 0-5 w:z 6-7
aaaaaaaaaaaaaaaaaaaaaaaaaaaaaaaaaaaaaaaaaaaaaaaaaaaaaaaaaaaaaaa => w:aaaaaaaaaaaaaaaaaaaaaaaaaaaaaaaaaaaaaaaaaaaaaaaaaaaaaaaaaaaaaaa 0-63
aaaaaaaaaaaaaaaaaaaaaaaaaaaaaaaaaaaaaaaaaaaaaaaaaaaaaaaaaaaaaaaa => NameTooLong(0)
x aaaaaaaaaaaaaaaaaaaaaaaaaaaaaaaaaaaaaaaaaaaaaaaaaaaaaaaaaaaaaaab => NameTooLong(2)
x,éééééééééééééééééééééééééééééééé => NameTooLong(2)
ae'x' => w:ae 0-2 s:x 2-5
e 'x' => w:e 0-1 s:x 2-5
n"x" => w:n 0-1 q:x 1-4
e'x' => Unsupported(0)
a, N'x' => Unsupported(3)
B'1' => Unsupported(0)
X'f => Unsupported(0)
"A b" => q:A b 0-5
"a""b" => q:a"b 0-6
"SELECT" => q:SELECT 0-8
"""" => q:" 0-4
"" => EmptyName(0)
a."" => EmptyName(2)
""; => EmptyName(0)
""" => UnclosedName(0)
a "b => UnclosedName(2)
" => UnclosedName(0)
"aaaaaaaaaaaaaaaaaaaaaaaaaaaaaaaaaaaaaaaaaaaaaaaaaaaaaaaaaaaaaaaaa => UnclosedName(0)
"aaaaaaaaaaaaaaaaaaaaaaaaaaaaaaaaaaaaaaaaaaaaaaaaaaaaaaaaaaaaaaa" => q:aaaaaaaaaaaaaaaaaaaaaaaaaaaaaaaaaaaaaaaaaaaaaaaaaaaaaaaaaaaaaaa 0-65
"aaaaaaaaaaaaaaaaaaaaaaaaaaaaaaaaaaaaaaaaaaaaaaaaaaaaaaaaaaaaaaaa" => NameTooLong(0)
"""""""""""""""""""""""""""""""""""""""""""""""""""""""""""""""""""""""""""""""""""""""""""""""""""""""""""""""""""""""""""""""" => q:""""""""""""""""""""""""""""""""""""""""""""""""""""""""""""""" 0-128
'a' => s:a 0-3
'' => s: 0-2
'it''s' => s:it's 0-7
'a\' => s:a\ 0-4
'A''''b' 'c' => s:A''b 0-8 s:c 9-12
'--x' '/*' => s:--x 0-5 s:/* 6-10
'é' => s:é 0-4
SELECT 'a => UnclosedString(7)
'a'' => UnclosedString(0)
' => UnclosedString(0)
0 => n:0 0-1
007 => n:7 0-3
9223372036854775807 => n:9223372036854775807 0-19
000000000000000000000001 => n:1 0-24
1-2 => n:1 0-1 Minus 1-2 n:2 2-3
SELECT 9223372036854775808 => TooWide(7)
-9223372036854775808 => TooWide(1)
18446744073709551617 => TooWide(0)
99999999999999999999.5 => TooWide(0)
9223372036854775808e5 => TooWide(0)
SELECT 1.5 => Unsupported(7)
1. => Unsupported(0)
1e5 => Unsupported(0)
2E7x => Unsupported(0)
1e+5 => Junk(0)
1e => Junk(0)
a 12b => Junk(2)
1_000 => Junk(0)
1$ => Junk(0)
1é => Junk(0)
99999999999999999999a => Junk(0)
.5 => Unsupported(0)
a .5 => Unsupported(2)
'a'.5 => Unsupported(3)
$1.5 => Unsupported(2)
a/**/.5 => Unsupported(5)
..5 => Unsupported(1)
(.5 => Unsupported(1)
a.5 => w:a 0-1 Dot 1-2 n:5 2-3
"a".5 => q:a 0-3 Dot 3-4 n:5 4-5
).5 => Close 0-1 Dot 1-2 n:5 2-3
t.v => w:t 0-1 Dot 1-2 w:v 2-3
$1 => p:1 0-2
$00012 => p:12 0-6
$99999 => p:99999 0-6
$123456 => p:12345 0-6 n:6 6-7
$1abc => p:1 0-2 w:abc 2-5
$ => BadCharacter(0)
1 $a => BadCharacter(2)
$$1 => BadCharacter(0)
+-*/% => Plus 0-1 Minus 1-2 Star 2-3 Slash 3-4 Percent 4-5
= <> != < <= > >= => Eq 0-1 Ne 2-4 Ne 5-7 Lt 8-9 Le 10-12 Gt 13-14 Ge 15-17
(),;. => Open 0-1 Close 1-2 Comma 2-3 Semi 3-4 Dot 4-5
::|| => Cast 0-2 Join 2-4
<<=<>=>== => Lt 0-1 Le 1-3 Ne 3-5 Eq 5-6 Ge 6-8 Eq 8-9
a<-1 => w:a 0-1 Lt 1-2 Minus 2-3 n:1 3-4
*/ => Star 0-1 Slash 1-2
! => BadCharacter(0)
1 :1 => BadCharacter(2)
a|b => BadCharacter(1)
a # b => BadCharacter(2)
[1] => BadCharacter(0)
~ ? @ & ^ => BadCharacter(0)
- -1 => Minus 0-1 Minus 2-3 n:1 3-4
1--2 => n:1 0-1
/*x*/a => w:a 5-6
a/*b*/c => w:a 0-1 w:c 6-7
/*/*x*/*/a => w:a 9-10
/***/a/**/ => w:a 5-6
/* -- */a => w:a 8-9
/*'*/'*/' => s:*/ 5-9
/*/*x*/a => UnclosedComment(0)
a /* => UnclosedComment(2)
/*/ => UnclosedComment(0)
'a' "b" 'c => UnclosedString(8)
"#;

/// Such texts that aren't plain lines.
pub const SPACED_LEXEMES: &[(&str, &str)] = &[
    ("\u{a0}a", "w:\u{a0}a 0-3"),
    ("a\0", "BadCharacter(1)"),
    ("\x7f", "BadCharacter(0)"),
    ("", ""),
    (" \t\n\x0b\x0c\r", ""),
    ("a\x0bb\x0cc", "w:a 0-1 w:b 2-3 w:c 4-5"),
    ("\x08", "BadCharacter(0)"),
    ("--x", ""),
    ("a--b\nc", "w:a 0-1 w:c 5-6"),
    ("a--b\rc", "w:a 0-1 w:c 5-6"),
    ("-- /*\na", "w:a 6-7"),
    ("a;-- b\n/* /* */", "UnclosedComment(7)"),
];
