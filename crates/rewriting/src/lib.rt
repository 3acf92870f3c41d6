// What the program `rewrite` writes, as a function from its input's bytes to its output's.
#![tactic(auto)]

ghost use Rattle.std.specs.Prelude.{◌≡◌};
ghost use Rattle.rewriting.specs.Rewriting.{rewritten};

use text::refusal_text;
use writing::Bytes;

// The book that the content of a book's bytes gives, or the line of its refusal.
pub fn rewrite(bytes: &[u8]) -> Bytes
    ensures { result.items ≡ rewritten bytes.now }
{
    match book::load(bytes) {
        Ok(book) => writing::bytes(&book),
        Err(refusal) => {
            let mut line = Bytes::new();
            refusal_text(refusal, &mut line);
            line
        }
    }
}
