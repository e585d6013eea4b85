// Sheets read into lent lists and written into a lent buffer of sevens, which keep what is not filled.
use crate::Out;
use rule::Reason;
use sheet::Counted;

fn counts(out: &mut Out, told: Result<Counted, Reason>) {
    match told {
        Ok(c) => writeln!(out, "COUNTS {} {} {}", c.years, c.months, c.days),
        Err(why) => show::refused(out, why),
    }
}

// Into lists of two sevens each.
fn read(out: &mut Out, bytes: &[u8]) {
    let mut years = [7u16; 2];
    let mut months = [7u32; 2];
    let mut days = [7u32; 2];
    show::text(out, b"SHEET");
    show::bytes(out, bytes);
    show::text(out, b"\n");
    counts(
        out,
        sheet::read_sheet(bytes, &mut years, &mut months, &mut days),
    );
    show::text(out, b"LISTS");
    show::lists(out, &years, &months, &days);
}

// How many bytes a call has put into a buffer, and then the whole buffer.
pub fn put(out: &mut Out, told: Result<usize, Reason>, buffer: &[u8]) {
    match told {
        Ok(n) => show::line(out, b"BYTES", n as u64),
        Err(why) => show::refused(out, why),
    }
    show::text(out, b"BUFFER");
    show::bytes(out, buffer);
    show::text(out, b"\n");
}

// Into twenty sevens.
fn write(out: &mut Out, years: &[u16], months: &[u32], days: &[u32]) {
    let mut buffer = [7u8; 20];
    show::text(out, b"WRITE");
    show::lists(out, years, months, days);
    put(
        out,
        sheet::write_sheet(years, months, days, &mut buffer),
        &buffer,
    );
}

fn read_each(out: &mut Out, sheets: &[&[u8]]) {
    for sheet in sheets {
        read(out, sheet);
    }
}

fn cut_and_known(out: &mut Out) {
    writeln!(
        out,
        "# Sheets into lists of two sevens: cut short, and the paper's two of case 12"
    );
    read_each(
        out,
        &[
            &b""[..],
            &b"\x00"[..],
            &b"\x00\x00\x00\x00\x00"[..],
            &b"\x00\x00\x00\x00\x00\x00"[..],
            &b"\x01\x00\x0b\x00\x00\x00\x00\x00"[..],
            &b"\x01\x00\x0b"[..],
            &b"\x00\x00\x01\x00\x86\x00\x00"[..],
            &b"\x00\x00\x00\x00\x01\x00\x00\x00\x00"[..],
        ],
    );
}

// A year of a sheet is a civil year: 0 and 41,040 are the first and the last.
fn edges(out: &mut Out) {
    writeln!(
        out,
        "# A count and an item of each kind, just outside and just inside"
    );
    read_each(
        out,
        &[
            &b"\xe8\x03"[..],
            &b"\xe9\x03"[..],
            &b"\x01\x00\x00\x00\x00\x00\x00\x00"[..],
            &b"\x01\x00\x50\xa0\x00\x00\x00\x00"[..],
            &b"\x01\x00\x51\xa0\x00\x00\x00\x00"[..],
            &b"\x02\x00\x00\x00\x50\xa0\x00\x00\x00\x00"[..],
            &b"\x02\x00\x00\x00\x51\xa0\x00\x00\x00\x00"[..],
            &b"\x00\x00\x01\x00\xcf\xbe\x07\x00\x00\x00"[..],
            &b"\x00\x00\x01\x00\xd0\xbe\x07\x00\x00\x00"[..],
            &b"\x00\x00\x00\x00\x01\x00\x23\xba\xe4\x00"[..],
            &b"\x00\x00\x00\x00\x01\x00\x24\xba\xe4\x00"[..],
        ],
    );
}

pub fn read_ones(out: &mut Out) {
    cut_and_known(out);
    edges(out);
    writeln!(
        out,
        "# Bytes left over, lists too short, and the order: byte order, then 11, then 12"
    );
    read_each(
        out,
        &[
            &b"\x00\x00\x00\x00\x00\x00\x00"[..],
            &b"\x02\x00\x0b\x00\x0c\x00\x00\x00\x00\x00"[..],
            &b"\x03\x00\x0b\x00\x0c\x00\x0d\x00\x00\x00\x00\x00"[..],
            &b"\x03\x00\x0b\x00\x0c\x00\x0d\x00\x00\x00\x00\x00\x00"[..],
            &b"\x03\x00\x0b\x00\x51\xa0\x0d\x00\x00\x00\x00\x00\x00"[..],
            &b"\x00\x00\x00\x00\xe9\x03\x00"[..],
        ],
    );
}

pub fn written_ones(out: &mut Out) {
    writeln!(out, "# Lists written into a buffer of twenty sevens");
    write(out, &[11u16], &[134u32], &[3957u32]);
    write(out, &[0u16], &[0u32; 0], &[0u32; 0]);
    write(out, &[0u16, 41040], &[0u32; 0], &[0u32; 0]);
    write(out, &[41041u16], &[507600u32], &[0u32; 0]);
    write(out, &[0u16, 41041], &[0u32; 0], &[0u32; 0]);
    write(out, &[41040u16], &[507600u32], &[14989860u32]);
    write(out, &[41040u16], &[507599u32], &[14989860u32]);
    write(out, &[41040u16], &[507599u32], &[14989859u32]);
    write(
        out,
        &[11u16, 12, 13, 14, 15, 16, 17],
        &[0u32; 0],
        &[0u32; 0],
    );
    write(
        out,
        &[11u16, 12, 13, 14, 15, 16, 17, 18],
        &[0u32; 0],
        &[0u32; 0],
    );
}

fn read_back(out: &mut Out, bytes: &[u8]) {
    let mut years = [7u16; 1000];
    let mut months = [7u32; 1000];
    let mut days = [7u32; 1000];
    show::text(out, b"SHEET READ BACK\n");
    counts(
        out,
        sheet::read_sheet(bytes, &mut years, &mut months, &mut days),
    );
    show::text(out, b"LAST");
    show::lists(out, &years[999..], &months[999..], &days[999..]);
}

fn full(out: &mut Out) {
    let mut buffer = [7u8; 10006];
    writeln!(
        out,
        "# A full sheet, read back, and a year too many\nWRITE 1000 OF EACH"
    );
    match sheet::write_sheet(
        &[41040u16; 1000],
        &[507599u32; 1000],
        &[14989859u32; 1000],
        &mut buffer,
    ) {
        Ok(n) => show::line(out, b"BYTES", n as u64),
        Err(why) => show::refused(out, why),
    }
    read_back(out, &buffer);
}

pub fn large_ones(out: &mut Out) {
    full(out);
    let mut buffer = [7u8; 2];
    show::text(out, b"WRITE 1001 YEARS\n");
    put(
        out,
        sheet::write_sheet(&[11u16; 1001], &[0u32; 0], &[0u32; 0], &mut buffer),
        &buffer,
    );
}
