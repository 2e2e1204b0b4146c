// One test for each door.
use air::Millikelvin;
use burning::Charge;
use console::inner::Table;
use forms::{pages, questions, sheets};
use refusal::Refusal;
use text::Pen;

// document 01's listing of its walk
const LISTING: &[u8] = b"step\tmK\trest\tlooks\n1\t200500\t1\t10\n2\t200501\t0\t10\n";

// the page of a walk that is refused at its start
const REFUSED: &[u8] = b"step\tmK\trest\tlooks\nrefused\t4\n";

#[test]
fn answers(rt: HostRuntime) {
    let heats = rows::columns::heat_column();
    let psis = rows::columns::psi_column();
    let cps = rows::columns::cp_column();
    let table = Table {
        heats: &heats,
        psis: &psis,
        cps: &cps,
    };
    let list = built_in::sheet();
    let line = b"specific-content\t100000\t21500\t41429\t1465757";
    let judged = sheet::inner::judge(&list, &heats);
    let told: [(_, &[u8]); 2] = [
        (judged, b"ok\t32611484\n"),
        (Err(Refusal::Limit), b"refused\t4\n"),
    ];
    for (sheet, told) in told {
        let mut out = [0u8; 64];
        let mut pen = Pen {
            buf: &mut out,
            at: 0,
        };
        console::inner::answer_judged(line, sheet, table, &mut pen);
        let end = pen.at;
        assert!(rt; end <= out.len());
        assert_eq!(rt; &out[..end], told);
    }
}

#[test]
fn walks(rt: HostRuntime) {
    let heats = rows::columns::heat_column();
    let list = built_in::sheet();
    let charge = Charge {
        air: 1,
        carbon: 0,
        hydrogen: 0,
    };
    let steps = [0i64, 0, 0, 1_200_000_001, 0, 0, 0, 2_400_000];
    let judged = sheet::inner::judge(&list, &heats);
    for (sheet, page) in [(judged, LISTING), (Err(Refusal::Limit), REFUSED)] {
        let mut out = [0u8; 64];
        let mut pen = Pen {
            buf: &mut out,
            at: 0,
        };
        let _ = console::inner::print_judged(charge, Millikelvin(200_000), &steps, sheet, &mut pen);
        let end = pen.at;
        assert!(rt; end <= out.len());
        assert_eq!(rt; &out[..end], page);
    }
}

#[test]
fn examples(rt: HostRuntime) {
    let heats = rows::columns::heat_column();
    let list = built_in::sheet();
    let judged = sheet::inner::judge(&list, &heats);
    for (sheet, page) in [(judged, LISTING), (Err(Refusal::Limit), REFUSED)] {
        let mut out = [0u8; pages::EXAMPLE_ROOM];
        let end = pages::put_example(sheet, &mut out);
        let at = page.len();
        assert_eq!(rt; end, at + 1 + 318);
        assert_eq!(rt; &out[..at], page);
        assert_eq!(rt; &out[at..at + 17], b"\nkeys walk [FILE]".as_slice());
    }
}

#[test]
fn questions(rt: HostRuntime) {
    let heats = rows::columns::heat_column();
    let list = built_in::sheet();
    let mut numbers = questions::places();
    let asked: [&[u8]; 4] = [
        b"100000\t0\t0\t400000",
        b"21500\t41429\t1030000\t0",
        b"0\t0\t0\t-1000000000000000",
        b"40000\t0\t1030000\t0",
    ];
    let mut question = Ok(0);
    for line in asked {
        question = questions::take(question, line, &mut numbers);
    }
    assert_eq!(rt; question.ok(), Some(4));
    let listing: &[u8] =
        b"step\tmK\trest\tlooks\n1\t1465757\t256259589792\t10\n2\t1462571\t224730913996\t11\nrefused\t4\n";
    let judged = sheet::inner::judge(&list, &heats);
    for (sheet, page, steps) in [
        (judged, listing, Some(2)),
        (Err(Refusal::Limit), REFUSED, None),
    ] {
        let mut out = [0u8; console::PAGE_ROOM];
        let printed = questions::put_page(4, &numbers, sheet, &mut out, 0);
        assert!(rt; printed.end <= out.len());
        assert_eq!(rt; &out[..printed.end], page);
        assert_eq!(rt; printed.answer.ok().map(|course| course.steps), steps);
    }
}

#[test]
fn texts(rt: HostRuntime) {
    let heats = rows::columns::heat_column();
    let list = [0u32; sheet::NUMBERS];
    let first: &[u8] = b"200\t0\t0\t0\n201\t0\t0\t0\n";
    let judged = sheet::inner::judge(&list, &heats);
    for (sheet, begin, bytes) in [
        (judged, first, 19_011),
        (Err(Refusal::Limit), &b"refused\t4\n"[..], 10),
    ] {
        let mut out = [0u8; sheet_text::MOST_TEXT];
        let end = sheets::put_sheet(sheet, &mut out);
        assert_eq!(rt; end, bytes);
        assert_eq!(rt; &out[..begin.len()], begin);
    }
}
