//! Marks of punctuation.

ghost use Rattle.std.specs.Prelude.{◌≡◌, ◌≤◌, length, map, IfSome};
ghost use Rattle.std.specs.Option.{option_copied};
ghost use Rattle.rs_lex.specs.Table.{mark_table};
ghost use Rattle.rs_lex.specs.Views.{mark_seen};
ghost use Rattle.rs_text.specs.Tokens as tokens;

// The marks of three, two and one bytes ("Punctuation").
const MARKS: [&[u8]; 52] = [
    b"<<=", b">>=", b"...", b"..=", b"&&", b"||", b"<<", b">>", b"+=", b"-=", b"*=", b"/=", b"%=",
    b"^=", b"&=", b"|=", b"==", b"!=", b">=", b"<=", b"..", b"::", b"->", b"=>", b"<-", b"+", b"-",
    b"*", b"/", b"%", b"^", b"!", b"&", b"|", b"=", b">", b"<", b"@", b".", b",", b";", b":", b"#",
    b"$", b"?", b"~", b"(", b")", b"[", b"]", b"{", b"}",
];

fn first_mark<'a>(table: &[&'a [u8]], bytes: &[u8]) -> Option<&'a [u8]>
    ensures value { mark_seen (option_copied result) ≡ tokens.first_mark (map (λ entry. entry.now) table.now) bytes.now }
    ensures within { IfSome result (λ mark. length mark.now ≤ length bytes.now) }
{
    for entry in table {
        if bytes.starts_with(entry) {
            return Some(*entry);
        }
    }
    None
}

// Whether a comment begins here.
fn begins_comment(bytes: &[u8]) -> bool
    ensures { result ≡ tokens.begins_comment bytes.now }
{
    bytes.starts_with(b"//") || bytes.starts_with(b"/*")
}

// The first mark of the table that the bytes begin with.
#[tactic(auto, unfolding(crate::specs::Table::mark_table))]
fn mark_in_table(bytes: &[u8]) -> Option<&'static [u8]>
    ensures value { mark_seen (option_copied result) ≡ tokens.first_mark mark_table bytes.now }
    ensures within { IfSome result (λ mark. length mark.now ≤ length bytes.now) }
{
    first_mark(&MARKS, bytes)
}

/// The longest mark that the bytes begin with, where no comment begins.
#[tactic(auto, using(crate::proofs::TableLemmas::same_marks))]
pub(crate) fn mark_at(bytes: &[u8]) -> Option<&'static [u8]>
    ensures value { mark_seen (option_copied result) ≡ tokens.mark_front bytes.now }
    ensures within { IfSome result (λ mark. length mark.now ≤ length bytes.now) }
{
    if begins_comment(bytes) {
        return None;
    }
    mark_in_table(bytes)
}
