//! Groups on GPT disks, and on disks of both styles.
use crate::edit::play;
use std::test::Fail;

// The first disk gets a GPT, whose only partition is the database: the LDM metadata partition. It
// loses the private header in sector 6. Groups of such disks and of MBR disks are read and edited.
const MIXED: &str = "\
! 0.mbr+1c2=ee
! 0.gpt+0=4546492050415254000001005c0000005648192e0000000001
! 0.gpt+20=ff1f0000000000002200000000000000ff1f
! 0.gpt+48=02000000000000000100000080000000eb745a12
! 0.gpt+200=aac808588f7ee04285d2e1e90434cfb3
! 0.gpt+220=0018000000000000ff1f
! 0.zero+6=
$ disk on A
disk 11111111-1111-1111-1111-111111111111 version 2.11 data 63+6081 database 6144+2048 gpt
area 17+1481 log 1498+224
= 0
$ disk --json on A
{\"sector_size\":512,\"guid\":\"11111111-1111-1111-1111-111111111111\",\"version_minor\":11,\"data_start\":63,\"data_size\":6081,\"database_start\":6144,\"database_size\":2048,\"area_start\":17,\"area_size\":1481,\"log_start\":1498,\"log_size\":224,\"partition_style\":\"gpt\"}
= 0
$ scan --json on A
[{\"image\":0,\"path\":\"A\",\"state\":\"open\",\"group\":\"Dg0\",\"group_guid\":\"aaaaaaaa-aaaa-aaaa-aaaa-aaaaaaaaaaaa\",\"disk\":\"Disk1\",\"disk_guid\":\"11111111-1111-1111-1111-111111111111\",\"sequence\":7,\"reason\":null,\"format\":null,\"partition_style\":\"gpt\"}]
= 0
$ check --json on A B
{\"editable\":false,\"kind\":\"absent\",\"reason\":\"disk 4 is absent\",\"images\":[{\"image\":0,\"path\":\"A\",\"sequence\":7,\"headers\":2,\"tables\":4},{\"image\":1,\"path\":\"B\",\"sequence\":7,\"headers\":3,\"tables\":4}],\"absent\":[{\"id\":4,\"name\":\"Disk3\",\"guid\":\"33333333-3333-3333-3333-333333333333\"}]}
= 0
$ create Data bbbbbbbb-bbbb-bbbb-bbbb-bbbbbbbbbbbb span Disk1=2048 Disk2=10 on A B C
1 ok 8
= 0 ABC
$ map Data 2047 2 on A B C
2047 copy 0 Disk1 2047 at 2110
2048 copy 0 Disk2 0 at 63
= 0
! 0.copy+200=57
$ check --past-damage on A B C
image 0 passed over: block 4: no VBLK
image 0 closed
image 1 sequence 8
image 2 sequence 8
ok: editable
= 0
$ repair on A B C
ok 8 repaired 1
= 0 A";

// All three disks have such a GPT.
const ALL: &str = "\
! *.mbr+1c2=ee
! *.gpt+0=4546492050415254000001005c0000005648192e0000000001
! *.gpt+20=ff1f0000000000002200000000000000ff1f
! *.gpt+48=02000000000000000100000080000000eb745a12
! *.gpt+200=aac808588f7ee04285d2e1e90434cfb3
! *.gpt+220=0018000000000000ff1f
! *.zero+6=
$ create Data bbbbbbbb-bbbb-bbbb-bbbb-bbbbbbbbbbbb raid5 4 12 Disk1 Disk2 Disk3 on A B C
1 ok 8
= 0 ABC
$ check on C A B
image 0 sequence 8
image 1 sequence 8
image 2 sequence 8
ok: editable
= 0
$ map Data 0 1 on A B
0 copy 0 Disk1 0 at 63
0 parity Disk3 0 missing
= 0";

// Without its private header the disk isn't mended, though its database has another one. One whose
// entries don't have their checksum is refused.
const DAMAGED: &str = "\
! 0.mbr+1c2=ee
! 0.gpt+0=4546492050415254000001005c0000005648192e0000000001
! 0.gpt+20=ff1f0000000000002200000000000000ff1f
! 0.gpt+48=02000000000000000100000080000000eb745a12
! 0.gpt+200=aac808588f7ee04285d2e1e90434cfb3
! 0.gpt+220=0018000000000000ff1f
! 0.zero+1fff=
$ check --past-damage on A B C
refused: image 0: no PRIVHEAD
= 1
! 0.gpt+238=01
$ disk on A
refused: image 0: GPT entries checksum
= 1";

// The partition is that of a basic disk.
const BASIC: &str = "\
! 0.mbr+1c2=ee
! 0.gpt+0=4546492050415254000001005c000000e1d72e180000000001
! 0.gpt+20=ff1f0000000000002200000000000000ff1f
! 0.gpt+48=02000000000000000100000080000000665ccf0a
! 0.gpt+200=a2a0d0ebe5b9334487c068b6b72699c7
! 0.gpt+220=0018000000000000ff1f
$ scan on A B
image 0 refused: no LDM metadata partition: a GPT disk
image 1 group Dg0 aaaaaaaa-aaaa-aaaa-aaaa-aaaaaaaaaaaa disk Disk2 22222222-2222-2222-2222-222222222222 sequence 7
= 0
$ scan --json on A
[{\"image\":0,\"path\":\"A\",\"state\":\"refused\",\"group\":null,\"group_guid\":null,\"disk\":null,\"disk_guid\":null,\"sequence\":null,\"reason\":\"no LDM metadata partition\",\"format\":\"gpt\",\"partition_style\":null}]
= 0
$ check on A B
refused: image 0: no LDM metadata partition
= 1";

#[test]
fn reads_and_edits_disks_of_both_styles(rt: HostRuntime) -> Result<(), Fail> {
    play(rt.alloc(), &rt, 3, 64, MIXED)
}

#[test]
fn reads_and_edits_gpt_disks(rt: HostRuntime) -> Result<(), Fail> {
    play(rt.alloc(), &rt, 3, 64, ALL)
}

#[test]
fn refuses_damaged_and_basic_gpt_disks(rt: HostRuntime) -> Result<(), Fail> {
    play(rt.alloc(), &rt, 3, 64, DAMAGED)?;
    play(rt.alloc(), &rt, 3, 64, BASIC)
}
