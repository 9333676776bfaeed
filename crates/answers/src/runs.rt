// The averages and the indices of a run, put on a page.
use due::{Answer, Index};
use exact::Fraction;
use run::Run;
use trial::Page;

fn put_means(page: &mut Page, l: &[Fraction; 11]) {
    page.put_each(l, |page, f| page.put_fraction(*f));
    page.put_line_end();
}

fn put_averages(page: &mut Page, r: &Run) {
    let a = averages::averages_of(*r);
    page.put_bytes(b"averages");
    page.put_number(a.number as u64);
    page.put_number(a.place as u64);
    page.put_bytes(b"\nup");
    put_means(page, &a.up);
    page.put_bytes(b"down");
    put_means(page, &a.down);
    page.put_bytes(b"both");
    put_means(page, &a.both);
}

fn put_answer(page: &mut Page, name: &str, a: Answer) {
    page.put_bytes(name.as_bytes());
    page.put_number(a.number as u64);
    page.put_number(a.place as u64);
    page.put_each(
        &[a.width, a.slope, a.offset, a.index],
        |page, f| page.put_fraction(*f),
    );
    page.put_number(a.thousandths);
    page.put_line_end();
}

fn put_indices(page: &mut Page, r: &Run) {
    let named = [
        ("terminal", Index::Terminal),
        ("shifted", Index::Shifted),
        ("independent", Index::Independent),
        ("zero", Index::Zero),
        ("front", Index::Front),
        ("hysteresis", Index::Hysteresis),
        ("repeatability", Index::Repeatability),
        ("lh", Index::Lh),
        ("lhr", Index::Lhr),
    ];
    for (name, index) in named {
        put_answer(page, name, indices::index_of(index, *r));
    }
}

pub fn put_figures(page: &mut Page, r: &Run) {
    put_averages(page, r);
    put_indices(page, r);
}
