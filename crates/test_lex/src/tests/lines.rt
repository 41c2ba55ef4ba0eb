// Lines, each with its tokens as `kind start-end`, or with its fault.

/// Blanks, and one carriage return at the end.
pub static BLANKS: [(&[u8], &str); 11] = [
    (b"", ""),
    (b"\r", ""),
    (b" \t ", ""),
    (b"SHOW LABEL", "word 0-4 word 5-10"),
    (b"\tSHOW \t LABEL ", "word 1-5 word 8-13"),
    (b"BYE\r", "word 0-3"),
    (b"BYE\r\r", "At(3)"),
    (b"\rBYE", "At(0)"),
    (b"BYE \r", "word 0-3"),
    (b"a\nb", "At(1)"),
    (b"a\x0bb", "At(1)"),
];

/// Words.
pub static WORDS: [(&[u8], &str); 9] = [
    (b"a", "word 0-1"),
    (b"_", "word 0-1"),
    (b"Z_9a", "word 0-4"),
    (b"a b", "word 0-1 word 2-3"),
    (b"a.b", "word 0-1 . 1-2 word 2-3"),
    (b"a-b", "word 0-1 - 1-2 word 2-3"),
    (b"a'b'", "word 0-1 text 1-4"),
    (b"caf\xc3\xa9", "At(3)"),
    (b"\xc3\xa9", "At(0)"),
];

/// Numbers, and digits before letters.
pub static NUMBERS: [(&[u8], &str); 17] = [
    (b"0", "0 0-1"),
    (b"007", "7 0-3"),
    (b"9a", "9 0-1 word 1-2"),
    (b"1DESC", "1 0-1 word 1-5"),
    (b"12_3", "12 0-2 word 2-4"),
    (b"1.5", "1 0-1 . 1-2 5 2-3"),
    (b"-1", "- 0-1 1 1-2"),
    (b"--1", "- 0-1 - 1-2 1 2-3"),
    (b"9223372036854775807", "9223372036854775807 0-19"),
    (b"9223372036854775808", "9223372036854775808 0-19"),
    (b"00009223372036854775808", "9223372036854775808 0-23"),
    (b"9223372036854775809", "Limit"),
    (b"9999999999999999999", "Limit"),
    (b"18446744073709551616", "Limit"),
    (b"18446744073709551617", "Limit"),
    (b"36893488147419103232", "Limit"),
    (b"9223372036854775808 1 9223372036854775809", "Limit"),
];

/// Each symbol, and the longest pair first.
pub static SYMBOLS: [(&[u8], &str); 25] = [
    (b"(),.", "( 0-1 ) 1-2 , 2-3 . 3-4"),
    (b"+-*;", "+ 0-1 - 1-2 * 2-3 ; 3-4"),
    (b"=", "= 0-1"),
    (b"<", "< 0-1"),
    (b">", "> 0-1"),
    (b"<>", "<> 0-2"),
    (b"!=", "<> 0-2"),
    (b"<=", "<= 0-2"),
    (b">=", ">= 0-2"),
    (b"==", "= 0-1 = 1-2"),
    (b"=<", "= 0-1 < 1-2"),
    (b"=>", "= 0-1 > 1-2"),
    (b"><", "> 0-1 < 1-2"),
    (b"< >", "< 0-1 > 2-3"),
    (b"< =", "< 0-1 = 2-3"),
    (b"<<=", "< 0-1 <= 1-3"),
    (b"<=>", "<= 0-2 > 2-3"),
    (b"<>=", "<> 0-2 = 2-3"),
    (b">>=", "> 0-1 >= 1-3"),
    (b"a!=b", "word 0-1 <> 1-3 word 3-4"),
    (b"!==", "<> 0-2 = 2-3"),
    (b"!", "At(0)"),
    (b"! =", "At(0)"),
    (b"a!", "At(1)"),
    (b"a<!=b", "word 0-1 < 1-2 <> 2-4 word 4-5"),
];

/// Texts.
pub static TEXTS: [(&[u8], &str); 16] = [
    (b"''", "text 0-2"),
    (b"'a'", "text 0-3"),
    (b"'it''s'", "text 0-7"),
    (b"''''", "text 0-4"),
    (b"'a''b''c'", "text 0-9"),
    (b"'a' 'b'", "text 0-3 text 4-7"),
    (b"'a''", "At(0)"),
    (b"'", "At(0)"),
    (b"'''", "At(0)"),
    (b"x 'a", "At(2)"),
    (b"'a'b'", "At(4)"),
    (b"'a\r'", "text 0-4"),
    (b"'a\r", "At(0)"),
    (b"'a'\r", "text 0-3"),
    (b"'# ! (('", "text 0-8"),
    (b"'\xc3\xa9'", "text 0-4"),
];

/// Bytes of no token.
pub static STRAY_BYTES: [(&[u8], &str); 8] = [
    (b"a # b", "At(2)"),
    (b"\"a\"", "At(0)"),
    (b"a\0", "At(1)"),
    (b"1 / 2", "At(2)"),
    (b"a\xc2\xa0b", "At(1)"),
    (b"[a]", "At(0)"),
    (b"x # '", "At(2)"),
    (b"x ' #", "At(2)"),
];

/// Bytes that are not UTF-8, in and out of a text.
pub static BAD_BYTES: [(&[u8], &str); 13] = [
    (b"\xff", "At(0)"),
    (b"a \xff", "At(2)"),
    (b"'a\xff'", "At(2)"),
    (b"'a\xff", "At(0)"),
    (b"'\xff' !", "At(1)"),
    (b"! '\xff'", "At(0)"),
    (b"'\xff' '", "At(1)"),
    (b"'\xc3\xa9\xff'", "At(3)"),
    (b"'\xc3'", "At(1)"),
    (b"'\xe2\x82'", "At(1)"),
    (b"'\xc0\x80'", "At(1)"),
    (b"'\xed\xa0\x80'", "At(1)"),
    (b"'\xf4\x90\x80\x80'", "At(1)"),
];

/// A place comes before a limit, wherever it stands.
pub static PLACES_FIRST: [(&[u8], &str); 2] = [
    (b"9223372036854775809 !", "At(20)"),
    (b"9223372036854775809 '\xff'", "At(21)"),
];
