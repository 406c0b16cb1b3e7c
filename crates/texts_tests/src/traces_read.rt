// Trace lines.
use crate::asks::{all_refused, taken};

#[test]
fn good_lines(rt: HostRuntime) {
    taken(&rt, b"s=1 signals=1 mark=0 ka=0 ta=0 kb=0 tb=0\n", 0, 41);
    taken(
        &rt,
        b"s=1 signals=1 mark=0 ka=0 ta=0 kb=0 tb=0\nrest",
        0,
        41,
    );
    taken(
        &rt,
        b"s=256 signals=4294967295 mark=255 ka=15 ta=256 kb=15 tb=256\n",
        255,
        60,
    );
    taken(&rt, b"s=2 signals=0 mark=7 ka=1 ta=1 kb=0 tb=0\n", 1, 41);
}

// No line end within the first 81 bytes.
#[test]
fn torn_lines(rt: HostRuntime) {
    all_refused(
        &rt,
        &[
            b"",
            b"s=1 signals=1 mark=0 ka=0 ta=0 kb=0 tb=0",
            b"xxxxxxxxxxxxxxxxxxxxxxxxxxxxxxxxxxxxxxxxxxxxxxxxxxxxxxxxxxxxxxxxxxxxxxxxxxxxxxxxx\n",
            b"xxxxxxxxxxxxxxxxxxxxxxxxxxxxxxxxxxxxxxxxxxxxxxxxxxxxxxxxxxxxxxxxxxxxxxxxxxxxxxxxxx\n",
            b"s=1 signals=1 mark=0 ka=0 ta=0 kb=0 tb=0                                         \n",
        ],
        0,
        1,
    );
    all_refused(
        &rt,
        &[
            b"xxxxxxxxxxxxxxxxxxxxxxxxxxxxxxxxxxxxxxxxxxxxxxxxxxxxxxxxxxxxxxxxxxxxxxxxxxxxxxxx\n",
            b"s=1 signals=1 mark=0 ka=0 ta=0 kb=0 tb=0                                        \n",
        ],
        0,
        2,
    );
}

#[test]
fn spaces_and_ends(rt: HostRuntime) {
    all_refused(
        &rt,
        &[
            b"\n",
            b"s=1 signals=1 mark=0 ka=0 ta=0 kb=0 tb=0\r\n",
            b"s=1 signals=1  mark=0 ka=0 ta=0 kb=0 tb=0\n",
            b" s=1 signals=1 mark=0 ka=0 ta=0 kb=0 tb=0\n",
            b"s=1 signals=1 mark=0 ka=0 ta=0 kb=0 tb=0 \n",
            b"s=1 signals=1\tmark=0 ka=0 ta=0 kb=0 tb=0\n",
        ],
        0,
        2,
    );
}

#[test]
fn keys(rt: HostRuntime) {
    all_refused(
        &rt,
        &[
            b"s=1 signals=1 ka=0 ta=0 kb=0 tb=0\n",
            b"s=1 signals=1 mark=0 mark=0 ka=0 ta=0 kb=0 tb=0\n",
            b"s=1 signals=1 mark=0 ta=0 ka=0 kb=0 tb=0\n",
            b"s=1 signal=1 mark=0 ka=0 ta=0 kb=0 tb=0\n",
            b"s=1 signals=1 mark=0 ka=0 ta=0 kB=0 tb=0\n",
            b"s = 1 signals = 1 mark=0 ka=0 ta=0 kb=0 tb=0\n",
            b"s=1 signals=1 mark=0 ka=0 ta=0 kb=0\n",
        ],
        0,
        2,
    );
}

#[test]
fn number_forms(rt: HostRuntime) {
    all_refused(
        &rt,
        &[
            b"s=1 signals=+1 mark=0 ka=0 ta=0 kb=0 tb=0\n",
            b"s=1 signals=-1 mark=0 ka=0 ta=0 kb=0 tb=0\n",
            b"s=1 signals=01 mark=0 ka=0 ta=0 kb=0 tb=0\n",
            b"s=1 signals=00 mark=0 ka=0 ta=0 kb=0 tb=0\n",
            b"s=1 signals= mark=0 ka=0 ta=0 kb=0 tb=0\n",
            b"s=1 signals=1x mark=0 ka=0 ta=0 kb=0 tb=0\n",
            b"s=1 signals=10000000000 mark=0 ka=0 ta=0 kb=0 tb=0\n",
        ],
        0,
        2,
    );
}

#[test]
fn ranges(rt: HostRuntime) {
    all_refused(
        &rt,
        &[
            b"s=1 signals=4294967296 mark=0 ka=0 ta=0 kb=0 tb=0\n",
            b"s=1 signals=9999999999 mark=0 ka=0 ta=0 kb=0 tb=0\n",
            b"s=1 signals=1 mark=256 ka=0 ta=0 kb=0 tb=0\n",
            b"s=1 signals=1 mark=0 ka=16 ta=0 kb=0 tb=0\n",
            b"s=1 signals=1 mark=0 ka=0 ta=0 kb=0 tb=257\n",
            b"s=0 signals=0 mark=0 ka=0 ta=0 kb=0 tb=0\n",
        ],
        0,
        3,
    );
    all_refused(&rt, &[b"s=1 signals=1 mark=0 ka=0 ta=0 kb=0 tb=0\n"], 1, 3);
    all_refused(
        &rt,
        &[b"s=257 signals=257 mark=0 ka=0 ta=0 kb=0 tb=0\n"],
        256,
        3,
    );
}

#[test]
fn form_before_range(rt: HostRuntime) {
    all_refused(
        &rt,
        &[b"s=9 signals=1 mark=300 ka=0 ta=0 kb=0 tb=x\n"],
        0,
        2,
    );
    all_refused(
        &rt,
        &[b"s=9 signals=1 mark=300 ka=0 ta=0 kb=0 tb=0\n"],
        0,
        3,
    );
}

#[test]
fn odd_bytes(rt: HostRuntime) {
    all_refused(
        &rt,
        &[
            b"s=1 signals=1 mark=\0 ka=0 ta=0 kb=0 tb=0\n",
            b"s=1 signals=1 mark=\xff ka=0 ta=0 kb=0 tb=0\n",
            b"\0\n",
            b"\xc3\xa9\n",
        ],
        0,
        2,
    );
}
