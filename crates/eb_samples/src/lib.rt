//! Descriptions, SDB records and captures that the tests of several crates read, with what they say worked out by hand.
//! It has no function, and the program doesn't use it.
#![tactic(auto)]

// The example of docs/DESCRIPTION.md.
pub const TWO: &str = r#"{"version":1,"data":32,"depth":4,"masters":2,"bus":{
 "product":{"vendor":"0x1001","device":1,"version":1,"date":"0x20240101","name":"two"},
 "last":"0xFFFF","sdb":"0x8000","items":[
 {"kind":"ram","product":{"vendor":"0x1001","device":16,"version":1,"date":"0x20240101","name":"ram-a"},
  "at":0,"size":4096},
 {"kind":"ram","product":{"vendor":"0x1001","device":16,"version":1,"date":"0x20240101","name":"ram-b"},
  "at":4096,"size":4096}]}}
"#;

pub const DEEP: &str = r#"{"version":1,"data":32,"depth":4,"masters":1,"bus":{
 "product":{"vendor":"0x1001","device":1,"version":1,"date":"0x20240101","name":"deep"},
 "last":"0xFFFFF","sdb":"0x30000","items":[
 {"kind":"ram","product":{"vendor":"0x1001","device":16,"version":1,"date":"0x20240101","name":"slow"},
  "at":0,"size":4096,"wait":7},
 {"kind":"bridge","product":{"vendor":"0x1001","device":32,"version":1,"date":"0x20240101","name":"br"},
  "at":"0x10000","bus":{
  "product":{"vendor":"0x1001","device":33,"version":1,"date":"0x20240101","name":"inner"},
  "last":"0xFFFF","sdb":"0x8000","items":[
  {"kind":"ram","product":{"vendor":"0x1001","device":16,"version":1,"date":"0x20240101","name":"fast"},
   "at":0,"size":4096}]}}]}}
"#;

pub const SOC: &str = r#"{"version":1,"data":32,"depth":4,"masters":2,"bus":{
 "product":{"vendor":"0x1001","device":1,"version":1,"date":"0x20240101","name":"soc-root"},
 "last":"0xFFFFF","sdb":"0x30000","items":[
 {"kind":"ram","product":{"vendor":"0x1001","device":16,"version":1,"date":"0x20240101","name":"main-ram"},
  "at":0,"size":65536},
 {"kind":"regs","product":{"vendor":"0x1001","device":17,"version":1,"date":"0x20240101","name":"control"},
  "at":"0x10000","port":"classic","words":[{"mode":"rw"},{"mode":"w1c","reset":255}]},
 {"kind":"fifo","product":{"vendor":"0x1001","device":18,"version":1,"date":"0x20240101","name":"fifo"},
  "at":"0x11000","depth":4,"wait":2},
 {"kind":"bridge","product":{"vendor":"0x1001","device":32,"version":1,"date":"0x20240101","name":"io-bridge"},
  "at":"0x20000","bus":{
  "product":{"vendor":"0x1001","device":33,"version":1,"date":"0x20240101","name":"io-bus"},
  "last":"0xFFFF","sdb":"0x8000","items":[
  {"kind":"ram","product":{"vendor":"0x1001","device":16,"version":1,"date":"0x20240101","name":"io-ram"},
   "at":0,"size":4096,"port":"wrapped"},
  {"kind":"regs","product":{"vendor":"0x1001","device":17,"version":1,"date":"0x20240101","name":"io-control"},
   "at":"0x1000","words":[{"mode":"ro","reset":7}]}]}},
 {"kind":"integration","product":{"vendor":"0x1001","device":48,"version":1,"date":"0x20240101","name":"demo-board"}},
 {"kind":"empty"}]}}
"#;

// The interconnect's record of a root bus with seven records, named soc-root.
pub const ROOT: [u8; 64] = [
    0x53, 0x44, 0x42, 0x2d, 0x00, 0x07, 0x01, 0x00, // magic, records, version, bus type
    0x00, 0x00, 0x00, 0x00, 0x00, 0x00, 0x00, 0x00, // first
    0x00, 0x00, 0x00, 0x00, 0x00, 0x0f, 0xff, 0xff, // last
    0x00, 0x00, 0x00, 0x00, 0x00, 0x00, 0x10, 0x01, // vendor
    0x00, 0x00, 0x00, 0x01, 0x00, 0x00, 0x00, 0x01, // device, version
    0x20, 0x24, 0x01, 0x01, 0x73, 0x6f, 0x63, 0x2d, // date, name
    0x72, 0x6f, 0x6f, 0x74, 0x20, 0x20, 0x20, 0x20, //
    0x20, 0x20, 0x20, 0x20, 0x20, 0x20, 0x20, 0x00, // type
];

// The record of a RAM of 65,536 octets, named main-ram.
pub const RAM: [u8; 64] = [
    0x00, 0x00, 0x00, 0x00, 0x00, 0x00, 0x00, 0x07, // class, version, bus specific
    0x00, 0x00, 0x00, 0x00, 0x00, 0x00, 0x00, 0x00, // first
    0x00, 0x00, 0x00, 0x00, 0x00, 0x00, 0xff, 0xff, // last
    0x00, 0x00, 0x00, 0x00, 0x00, 0x00, 0x10, 0x01, // vendor
    0x00, 0x00, 0x00, 0x10, 0x00, 0x00, 0x00, 0x01, // device, version
    0x20, 0x24, 0x01, 0x01, 0x6d, 0x61, 0x69, 0x6e, // date, name
    0x2d, 0x72, 0x61, 0x6d, 0x20, 0x20, 0x20, 0x20, //
    0x20, 0x20, 0x20, 0x20, 0x20, 0x20, 0x20, 0x01, // type
];

// A write of a word of a RAM, and a read of it.
pub const CAPTURE: [u8; 28] = [
    0x4E, 0x6F, 0x10, 0x44, 0x08, 0x0F, 0x01, 0x00, 0x00, 0x00, 0x00, 0x10, 0xDE, 0xAD, 0xBE, 0xEF,
    0x88, 0x0F, 0x00, 0x01, 0x00, 0x00, 0x00, 0x00, 0x00, 0x00, 0x00, 0x10,
];

pub const REPLY: [u8; 16] = [
    0x4E, 0x6F, 0x14, 0x44, 0x0C, 0x0F, 0x01, 0x00, 0x00, 0x00, 0x00, 0x00, 0xDE, 0xAD, 0xBE, 0xEF,
];
