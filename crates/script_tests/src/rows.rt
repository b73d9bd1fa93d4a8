//! Small scripts with their reports.
use artheap_top::Status;

/// A script that a process with this many regions runs, its report, and how the run ends.
pub(crate) struct Row {
    pub(crate) regions: &'static str,
    pub(crate) script: &'static [u8],
    pub(crate) report: &'static [u8],
    pub(crate) status: Status,
}

pub(crate) const ROWS: [Row; 24] = [
    // first lines
    Row {
        regions: "64",
        script: b"zygote class P java.lang.Object x:int\nzygote new a P\nzygote get a x\n",
        report: b"1: class 2\n2: #1\n3: 0\n",
        status: Status::Ok,
    },
    // range of int
    Row {
        regions: "64",
        script: b"zygote class P java.lang.Object x:int\nzygote new a P\nzygote set a x 2147483647\nzygote set a x 2147483648\nzygote get a x\n",
        report: b"1: class 2\n2: #1\n3: ok\n4: E14 value does not fit\n5: 2147483647\n",
        status: Status::Refused,
    },
    // empty array
    Row {
        regions: "64",
        script: b"zygote array a byte 0\nzygote at a 0\n",
        report: b"1: #1\n2: E13 index out of range\n",
        status: Status::Refused,
    },
    // full heap
    Row {
        regions: "1",
        script: b"zygote seal\nzygote array a0 byte 12275\nzygote array a1 byte 12275\nzygote array a2 byte 12275\nzygote array a3 byte 12275\nzygote array a4 byte 12275\nzygote array a5 byte 12275\nzygote array a6 byte 12275\nzygote array a7 byte 12275\nzygote array a8 byte 12275\nzygote array a9 byte 12275\nzygote array a10 byte 12275\nzygote array a11 byte 12275\nzygote array a12 byte 12275\nzygote array a13 byte 12275\nzygote array a14 byte 12275\nzygote array a15 byte 12275\nzygote array a16 byte 12275\nzygote array a17 byte 12275\nzygote array a18 byte 12275\nzygote array a19 byte 12275\nzygote array a20 byte 12275\nzygote array a21 byte 12275\nzygote drop a5\nzygote array a21 byte 12275\n",
        report: b"1: ok\n2: #1\n3: #2\n4: #3\n5: #4\n6: #5\n7: #6\n8: #7\n9: #8\n10: #9\n11: #10\n12: #11\n13: #12\n14: #13\n15: #14\n16: #15\n17: #16\n18: #17\n19: #18\n20: #19\n21: #20\n22: #21\n23: E19 heap full: free 0 needed 1\n24: ok\n25: #22 gc\n",
        status: Status::Refused,
    },
    // largest array of references
    Row {
        regions: "64",
        script: b"zygote seal\nzygote array a ref 65533\nzygote free\nzygote array b ref 65534\n",
        report: b"1: ok\n2: #1\n3: regions 63\n4: E17 object too large\n",
        status: Status::Refused,
    },
    // large and small
    Row {
        regions: "64",
        script: b"zygote seal\nzygote array a byte 12276\nzygote free\nzygote array b byte 12275\nzygote free\nzygote pages\nzygote frames\n",
        report: b"1: ok\n2: #1\n3: regions 63\n4: #2\n5: regions 62\n6: image 0 0 zygote 0 0 large 0 0\n7: frames 6\n",
        status: Status::Ok,
    },
    // unreached ring
    Row {
        regions: "64",
        script: b"zygote class N java.lang.Object n:ref\nzygote seal\nzygote new a N\nzygote new b N\nzygote set a n b\nzygote set b n a\nzygote drop a\nzygote drop b\nzygote gc\n",
        report: b"1: class 2\n2: ok\n3: #1\n4: #2\n5: ok\n6: ok\n7: ok\n8: ok\n9: kept 0 freed 2\n",
        status: Status::Ok,
    },
    // fork and store
    Row {
        regions: "64",
        script: b"zygote class P java.lang.Object x:int\nzygote seal\nzygote new a P\nzygote set a x 7\nzygote fork c1\nc1 set a x 9\nzygote get a x\nc1 get a x\nc1 pages\nzygote pages\nzygote frames\nzygote exit\nc1 get a x\nc1 frames\nzygote get a x\n",
        report: b"1: class 2\n2: ok\n3: #1\n4: ok\n5: ok\n6: ok\n7: 7\n8: 9\n9: image 0 0 zygote 1 1 large 0 0\n10: image 0 0 zygote 1 0 large 0 0\n11: frames 2\n12: ok\n13: 9\n14: frames 1\n15: E4 process exited\n",
        status: Status::Refused,
    },
    // second fork
    Row {
        regions: "64",
        script: b"zygote class N java.lang.Object n:ref\nzygote seal\nzygote new a N\nzygote fork c1\nzygote new b N\nzygote set a n b\nzygote pages\nzygote fork c2\nc2 gc\nc2 pages\nc2 get a n\nc1 get a n\nzygote frames\n",
        report: b"1: class 2\n2: ok\n3: #1\n4: ok\n5: #2\n6: ok\n7: image 0 0 zygote 1 1 large 0 0\n8: ok\n9: kept 0 freed 0\n10: image 0 0 zygote 2 0 large 0 0\n11: #2\n12: null\n13: frames 3\n",
        status: Status::Ok,
    },
    // slot that leaves
    Row {
        regions: "64",
        script: b"zygote class N java.lang.Object n:ref\nzygote seal\nzygote new a N\nzygote fork c1\nc1 new b N\nc1 set a n b\nc1 drop b\nc1 gc\nc1 gc\nc1 load q a n\nc1 pages\n",
        report: b"1: class 2\n2: ok\n3: #1\n4: ok\n5: #2\n6: ok\n7: ok\n8: kept 1 freed 0\n9: kept 1 freed 0\n10: #2\n11: image 0 0 zygote 1 1 large 0 0\n",
        status: Status::Ok,
    },
    // weak reference
    Row {
        regions: "64",
        script: b"zygote class P java.lang.Object x:int\nzygote seal\nzygote new a P\nzygote weak w a\nzygote gc\nzygote get w referent\nzygote drop a\nzygote gc\nzygote get w referent\n",
        report: b"1: class 2\n2: ok\n3: #1\n4: #2\n5: kept 2 freed 0\n6: #1\n7: ok\n8: kept 1 freed 1\n9: null\n",
        status: Status::Ok,
    },
    // weak reference over a fork
    Row {
        regions: "64",
        script: b"zygote class P java.lang.Object x:int\nzygote seal\nzygote new a P\nzygote weak w a\nzygote fork c1\nc1 new y P\nc1 set w referent y\nc1 pages\nc1 drop y\nc1 gc\nc1 get w referent\nc1 pages\nzygote get w referent\n",
        report: b"1: class 2\n2: ok\n3: #1\n4: #2\n5: ok\n6: #3\n7: ok\n8: image 0 0 zygote 1 1 large 0 0\n9: ok\n10: kept 0 freed 1\n11: null\n12: image 0 0 zygote 1 1 large 0 0\n13: #1\n",
        status: Status::Ok,
    },
    // large array over a fork
    Row {
        regions: "64",
        script: b"zygote seal\nzygote array a byte 1048564\nzygote free\nzygote fork c1\nc1 put a 5000 1\nc1 pages\nzygote pages\nzygote frames\nzygote at a 5000\nzygote drop a\nzygote gc\nzygote free\n",
        report: b"1: ok\n2: #1\n3: regions 60\n4: ok\n5: ok\n6: image 0 0 zygote 0 0 large 256 1\n7: image 0 0 zygote 0 0 large 256 0\n8: frames 257\n9: 0\n10: ok\n11: kept 0 freed 0\n12: regions 60\n",
        status: Status::Ok,
    },
    // seal and names
    Row {
        regions: "64",
        script: b"zygote fork c\nzygote gc\nzygote dump\nzygote seal\nzygote seal\nzygote fork zygote\nd gc\n",
        report: b"1: E16 not sealed\n2: E16 not sealed\n3: E16 not sealed\n4: ok\n5: E15 already sealed\n6: E21 process name taken\n7: E3 no such process\n",
        status: Status::Refused,
    },
    // refusals
    Row {
        regions: "64",
        script: b"zygote class P java.lang.Object x:int\nzygote class P java.lang.Object\nzygote class Q X\nzygote class Q P x:byte\nzygote class Q P y:int y:int\nzygote get a x\nzygote new a P\nzygote get a z\nzygote at a 0\nzygote class R java.lang.Object r:ref\nzygote new b R\nzygote load q b r\nzygote get q x\nzygote show b\nzygote show q\n",
        report: b"1: class 2\n2: E5 class taken\n3: E6 no such class\n4: E8 field taken\n5: E8 field taken\n6: E9 no such root\n7: #1\n8: E11 no such field\n9: E12 not an array\n10: class 3\n11: #2\n12: null\n13: E10 null\n14: #2 R\n15: null\n",
        status: Status::Refused,
    },
    // referent of a subclass
    Row {
        regions: "64",
        script: b"zygote class S java.lang.ref.WeakReference x:int\nzygote seal\nzygote new s S\nzygote new o java.lang.Object\nzygote set s referent o\nzygote drop o\nzygote gc\nzygote get s referent\n",
        report: b"1: class 2\n2: ok\n3: #1\n4: #2\n5: ok\n6: ok\n7: kept 1 freed 1\n8: null\n",
        status: Status::Ok,
    },
    // bad lines
    Row {
        regions: "64",
        script: b"zygote frob\nzygote new null P\nzygote array a float 3\n",
        report: b"1: E1 bad line\n2: E1 bad line\n3: E1 bad line\n",
        status: Status::Refused,
    },
    // shared image
    Row {
        regions: "64",
        script: b"zygote class P java.lang.Object x:int\nzygote new a P\n\nzygote frames\nzygote set a x 1\nzygote pages\nzygote seal\nzygote fork c\nc set a x 1\r\nc pages\n# a comment\nc frames\n",
        report: b"1: class 2\n2: #1\n4: frames 1\n5: ok\n6: image 1 0 zygote 0 0 large 0 0\n7: ok\n8: ok\n9: ok\n10: image 1 1 zygote 0 0 large 0 0\n12: frames 2\n",
        status: Status::Ok,
    },
    // two children in order 0
    Row {
        regions: "64",
        script: b"zygote class P java.lang.Object x:int\nzygote seal\nzygote new a P\nzygote set a x 7\nzygote fork c1\nzygote fork c2\nc1 set a x 1\nc1 get a x\nc2 set a x 2\nc2 get a x\n",
        report: b"1: class 2\n2: ok\n3: #1\n4: ok\n5: ok\n6: ok\n7: ok\n8: 1\n9: ok\n10: 2\n",
        status: Status::Ok,
    },
    // two children in order 1
    Row {
        regions: "64",
        script: b"zygote class P java.lang.Object x:int\nzygote seal\nzygote new a P\nzygote set a x 7\nzygote fork c1\nzygote fork c2\nc1 set a x 1\nc2 set a x 2\nc1 get a x\nc2 get a x\n",
        report: b"1: class 2\n2: ok\n3: #1\n4: ok\n5: ok\n6: ok\n7: ok\n8: ok\n9: 1\n10: 2\n",
        status: Status::Ok,
    },
    // two children in order 2
    Row {
        regions: "64",
        script: b"zygote class P java.lang.Object x:int\nzygote seal\nzygote new a P\nzygote set a x 7\nzygote fork c1\nzygote fork c2\nc1 set a x 1\nc2 set a x 2\nc2 get a x\nc1 get a x\n",
        report: b"1: class 2\n2: ok\n3: #1\n4: ok\n5: ok\n6: ok\n7: ok\n8: ok\n9: 2\n10: 1\n",
        status: Status::Ok,
    },
    // two children in order 3
    Row {
        regions: "64",
        script: b"zygote class P java.lang.Object x:int\nzygote seal\nzygote new a P\nzygote set a x 7\nzygote fork c1\nzygote fork c2\nc2 set a x 2\nc1 set a x 1\nc1 get a x\nc2 get a x\n",
        report: b"1: class 2\n2: ok\n3: #1\n4: ok\n5: ok\n6: ok\n7: ok\n8: ok\n9: 1\n10: 2\n",
        status: Status::Ok,
    },
    // two children in order 4
    Row {
        regions: "64",
        script: b"zygote class P java.lang.Object x:int\nzygote seal\nzygote new a P\nzygote set a x 7\nzygote fork c1\nzygote fork c2\nc2 set a x 2\nc1 set a x 1\nc2 get a x\nc1 get a x\n",
        report: b"1: class 2\n2: ok\n3: #1\n4: ok\n5: ok\n6: ok\n7: ok\n8: ok\n9: 2\n10: 1\n",
        status: Status::Ok,
    },
    // two children in order 5
    Row {
        regions: "64",
        script: b"zygote class P java.lang.Object x:int\nzygote seal\nzygote new a P\nzygote set a x 7\nzygote fork c1\nzygote fork c2\nc2 set a x 2\nc2 get a x\nc1 set a x 1\nc1 get a x\n",
        report: b"1: class 2\n2: ok\n3: #1\n4: ok\n5: ok\n6: ok\n7: ok\n8: 2\n9: ok\n10: 1\n",
        status: Status::Ok,
    },
];
