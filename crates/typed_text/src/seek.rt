// The line that gives the input of a point.
ghost use Rattle.std.specs.Prelude.{◌≡◌};
ghost use Rattle.text.specs.Text.{heard, gives_point, point_line};

use record::Record;
use spoken::Said;

fn is_point(i: usize, h: Said) -> bool
    ensures { result ≡ gives_point i h }
{
    matches!(h, Said::Item { record: Record::Point { index, .. } } if index == i)
}

// The first line that gives the input of a point; 0 where none does.
pub fn line_of_point(text: &[u8], i: usize) -> usize
    ensures { result ≡ point_line 1 (heard text.now) i }
{
    let mut k = 0;
    let mut at = 0;
    // from line to line: no `for` goes by steps of unlike lengths
    while at < text.len() {
        let end = words::line_end(text, at);
        k += 1;
        if is_point(i, spoken::hear(&text[at..end])) {
            return k;
        }
        at = end + 1;
    }
    0
}
