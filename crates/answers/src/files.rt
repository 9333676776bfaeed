// What the reader, the writer and the sheet give, put on a page.
use run::Run;
use trial::Page;

fn put_run(page: &mut Page, r: &Run) {
    page.put_bytes(b"run");
    page.put_number(r.m as u64);
    page.put_number(r.n as u64);
    page.put_number(r.strokes as u64);
    page.put_bytes(b"\nx");
    page.put_each(&r.x, |page, v| page.put_signed(v.count));
    page.put_bytes(b"\ny");
    page.put_each(&r.y, |page, v| page.put_signed(v.count));
    page.put_line_end();
}

pub fn put_write(page: &mut Page, r: &Run, out: &mut [u8]) {
    let w = writer::write(*r, out);
    page.put_bytes(b"write");
    page.put_number(w.number as u64);
    page.put_number(w.place as u64);
    page.put_number(w.len as u64);
    page.put_line_end();
    page.put_hex(out);
}

fn put_read(page: &mut Page, s: &[u8], out: &mut [u8]) {
    let a = reader::read(s);
    page.put_bytes(b"read");
    page.put_number(a.number as u64);
    page.put_number(a.place as u64);
    page.put_line_end();
    put_run(page, &a.run);
    if a.number == 0 {
        put_write(page, &a.run, out);
    }
}

fn put_sheet(page: &mut Page, s: &[u8], out: &mut [u8]) {
    let q = sheet_text::sheet(s, out);
    page.put_bytes(b"sheet");
    page.put_number(plain::number(q) as u64);
    page.put_number(q.unwrap_or(0) as u64);
    page.put_line_end();
    page.put_hex(out);
}

fn put_close(page: &mut Page, s: &[u8]) {
    let a = reader::read_to_close(s);
    page.put_bytes(b"close");
    page.put_number(a.number as u64);
    page.put_number(a.place as u64);
    page.put_number(a.end as u64);
    page.put_line_end();
    put_run(page, &a.run);
}

// The reader's answer where the kind is 0, the sheet where it is 2, else the answer up to the close.
pub fn put_file(page: &mut Page, kind: u64, s: &[u8], out: &mut [u8]) {
    match kind {
        0 => put_read(page, s, out),
        2 => put_sheet(page, s, out),
        _ => put_close(page, s),
    }
}
