//! Texts that stand in front.
use plan_lang::words::strip_text;

const PREFIXES: [(&[u8], &[u8], Option<&[u8]>); 6] = [
    (b"volumes ", b"volumes 8", Some(b"8")),
    (b"volumes ", b"volumes ", Some(b"")),
    (b"volumes ", b"volumes", None),
    (b"volumes ", b"volume 8 9", None),
    (b"volumes ", b"", None),
    (b"", b"go", Some(b"go")),
];

#[test]
fn words(rt: HostRuntime) {
    for (text, bytes, rest) in PREFIXES {
        assert_eq!(rt; strip_text(text, bytes), rest);
    }
}
