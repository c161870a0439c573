//! JSON of the jobs that look, and what `scan` says of images alone.
use crate::edit::play;
use std::test::Fail;

// A disk and a group, a name of a quote, a backslash and bytes that are no characters, which goes back
// as a word as it stands, the records of a copy, places, and refusals; images whose copy is closed, and that
// are of no group.
const SESSION: &str = "\
$ disk --json on A
{\"sector_size\":512,\"guid\":\"11111111-1111-1111-1111-111111111111\",\"version_minor\":11,\"data_start\":63,\"data_size\":6081,\"database_start\":6144,\"database_size\":2048,\"area_start\":17,\"area_size\":1481,\"log_start\":1498,\"log_size\":224,\"partition_style\":\"mbr\"}
= 0
$ scan on C A
image 0 group Dg0 aaaaaaaa-aaaa-aaaa-aaaa-aaaaaaaaaaaa disk Disk3 33333333-3333-3333-3333-333333333333 sequence 7
image 1 group Dg0 aaaaaaaa-aaaa-aaaa-aaaa-aaaaaaaaaaaa disk Disk1 11111111-1111-1111-1111-111111111111 sequence 7
= 0
$ scan --json on C A
[{\"image\":0,\"path\":\"C\",\"state\":\"open\",\"group\":\"Dg0\",\"group_guid\":\"aaaaaaaa-aaaa-aaaa-aaaa-aaaaaaaaaaaa\",\"disk\":\"Disk3\",\"disk_guid\":\"33333333-3333-3333-3333-333333333333\",\"sequence\":7,\"reason\":null,\"format\":null,\"partition_style\":\"mbr\"},{\"image\":1,\"path\":\"A\",\"state\":\"open\",\"group\":\"Dg0\",\"group_guid\":\"aaaaaaaa-aaaa-aaaa-aaaa-aaaaaaaaaaaa\",\"disk\":\"Disk1\",\"disk_guid\":\"11111111-1111-1111-1111-111111111111\",\"sequence\":7,\"reason\":null,\"format\":null,\"partition_style\":\"mbr\"}]
= 0
$ check --json on A B C
{\"editable\":true,\"kind\":null,\"reason\":null,\"images\":[{\"image\":0,\"path\":\"A\",\"sequence\":7,\"headers\":3,\"tables\":4},{\"image\":1,\"path\":\"B\",\"sequence\":7,\"headers\":3,\"tables\":4},{\"image\":2,\"path\":\"C\",\"sequence\":7,\"headers\":3,\"tables\":4}],\"absent\":[]}
= 0
$ create Data bbbbbbbb-bbbb-bbbb-bbbb-bbbbbbbbbbbb span Disk1=2048 Disk1=10 on A B C
1 ok 8
= 0 ABC
$ show --json on A B C
{\"sector_size\":512,\"name\":\"Dg0\",\"guid\":\"aaaaaaaa-aaaa-aaaa-aaaa-aaaaaaaaaaaa\",\"sequence\":8,\"blocks\":8,\"blocks_room\":60,\"disks\":[{\"id\":2,\"name\":\"Disk1\",\"guid\":\"11111111-1111-1111-1111-111111111111\",\"image\":0,\"path\":\"A\",\"data_start\":63,\"data_size\":6081,\"free\":4023,\"largest_free\":4023},{\"id\":3,\"name\":\"Disk2\",\"guid\":\"22222222-2222-2222-2222-222222222222\",\"image\":1,\"path\":\"B\",\"data_start\":63,\"data_size\":6081,\"free\":6081,\"largest_free\":6081},{\"id\":4,\"name\":\"Disk3\",\"guid\":\"33333333-3333-3333-3333-333333333333\",\"image\":2,\"path\":\"C\",\"data_start\":63,\"data_size\":6081,\"free\":6081,\"largest_free\":6081}],\"volumes\":[{\"id\":5,\"name\":\"Data\",\"guid\":\"bbbbbbbb-bbbb-bbbb-bbbb-bbbbbbbbbbbb\",\"type\":\"span\",\"size\":2058,\"bytes\":1053696,\"state\":\"whole\",\"lost_sectors\":null,\"hint\":null,\"components\":[{\"id\":6,\"name\":\"c6\",\"layout\":\"basic\",\"chunk\":null,\"columns\":null,\"partitions\":[{\"id\":7,\"name\":\"p7\",\"disk\":\"Disk1\",\"disk_id\":2,\"start\":0,\"image_start\":63,\"size\":2048,\"offset\":0,\"index\":null},{\"id\":8,\"name\":\"p8\",\"disk\":\"Disk1\",\"disk_id\":2,\"start\":2048,\"image_start\":2111,\"size\":10,\"offset\":2048,\"index\":null}]}]}]}
= 0
$ create a\"\\x5c\\x00\\xff cccccccc-cccc-cccc-cccc-cccccccccccc raid5 4 12 Disk1 Disk2 Disk3 on A B C
1 ok 9
= 0 ABC
$ show --json on B A
{\"sector_size\":512,\"name\":\"Dg0\",\"guid\":\"aaaaaaaa-aaaa-aaaa-aaaa-aaaaaaaaaaaa\",\"sequence\":9,\"blocks\":13,\"blocks_room\":60,\"disks\":[{\"id\":2,\"name\":\"Disk1\",\"guid\":\"11111111-1111-1111-1111-111111111111\",\"image\":1,\"path\":\"A\",\"data_start\":63,\"data_size\":6081,\"free\":4011,\"largest_free\":4011},{\"id\":3,\"name\":\"Disk2\",\"guid\":\"22222222-2222-2222-2222-222222222222\",\"image\":0,\"path\":\"B\",\"data_start\":63,\"data_size\":6081,\"free\":6069,\"largest_free\":6069},{\"id\":4,\"name\":\"Disk3\",\"guid\":\"33333333-3333-3333-3333-333333333333\",\"image\":null,\"path\":null,\"data_start\":null,\"data_size\":null,\"free\":null,\"largest_free\":null}],\"volumes\":[{\"id\":5,\"name\":\"Data\",\"guid\":\"bbbbbbbb-bbbb-bbbb-bbbb-bbbbbbbbbbbb\",\"type\":\"span\",\"size\":2058,\"bytes\":1053696,\"state\":\"whole\",\"lost_sectors\":null,\"hint\":null,\"components\":[{\"id\":6,\"name\":\"c6\",\"layout\":\"basic\",\"chunk\":null,\"columns\":null,\"partitions\":[{\"id\":7,\"name\":\"p7\",\"disk\":\"Disk1\",\"disk_id\":2,\"start\":0,\"image_start\":63,\"size\":2048,\"offset\":0,\"index\":null},{\"id\":8,\"name\":\"p8\",\"disk\":\"Disk1\",\"disk_id\":2,\"start\":2048,\"image_start\":2111,\"size\":10,\"offset\":2048,\"index\":null}]}]},{\"id\":9,\"name\":\"a\\\"\\\\x5c\\\\x00\\\\xff\",\"guid\":\"cccccccc-cccc-cccc-cccc-cccccccccccc\",\"type\":\"raid5\",\"size\":24,\"bytes\":12288,\"state\":\"degraded\",\"lost_sectors\":null,\"hint\":null,\"components\":[{\"id\":10,\"name\":\"c10\",\"layout\":\"raid\",\"chunk\":4,\"columns\":3,\"partitions\":[{\"id\":11,\"name\":\"p11\",\"disk\":\"Disk1\",\"disk_id\":2,\"start\":2058,\"image_start\":2121,\"size\":12,\"offset\":0,\"index\":0},{\"id\":12,\"name\":\"p12\",\"disk\":\"Disk2\",\"disk_id\":3,\"start\":0,\"image_start\":63,\"size\":12,\"offset\":0,\"index\":1},{\"id\":13,\"name\":\"p13\",\"disk\":\"Disk3\",\"disk_id\":4,\"start\":0,\"image_start\":null,\"size\":12,\"offset\":0,\"index\":2}]}]}]}
= 0
$ map a\"\\x5c\\x00\\xff 0 1 on A B C
0 copy 0 Disk1 2058 at 2121
0 parity Disk3 0 at 63
= 0
$ records --json on C
{\"state\":\"open\",\"name\":\"Dg0\",\"guid\":\"aaaaaaaa-aaaa-aaaa-aaaa-aaaaaaaaaaaa\",\"sequence\":9,\"last\":64,\"records\":[{\"kind\":\"group\",\"type\":\"dgr3\",\"id\":1,\"name\":\"Dg0\",\"length\":63,\"mark\":0,\"flags\":0,\"guid\":\"aaaaaaaa-aaaa-aaaa-aaaa-aaaaaaaaaaaa\",\"id1\":null,\"id2\":null},{\"kind\":\"disk\",\"type\":\"dsk3\",\"id\":2,\"name\":\"Disk1\",\"length\":66,\"mark\":0,\"flags\":0,\"guid\":\"11111111-1111-1111-1111-111111111111\",\"alternative_name\":\"\\\\e\"},{\"kind\":\"disk\",\"type\":\"dsk3\",\"id\":3,\"name\":\"Disk2\",\"length\":66,\"mark\":0,\"flags\":0,\"guid\":\"22222222-2222-2222-2222-222222222222\",\"alternative_name\":\"\\\\e\"},{\"kind\":\"disk\",\"type\":\"dsk3\",\"id\":4,\"name\":\"Disk3\",\"length\":66,\"mark\":0,\"flags\":0,\"guid\":\"33333333-3333-3333-3333-333333333333\",\"alternative_name\":\"\\\\e\"},{\"kind\":\"volume\",\"type\":\"vol5\",\"id\":5,\"name\":\"Data\",\"length\":83,\"mark\":0,\"flags\":0,\"volume_kind\":\"gen\",\"second\":\"\\\\e\",\"children\":1,\"size\":2058,\"partition_type\":7,\"guid\":\"bbbbbbbb-bbbb-bbbb-bbbb-bbbbbbbbbbbb\",\"id1\":null,\"id2\":null,\"size2\":null,\"drive_hint\":null},{\"kind\":\"volume\",\"type\":\"vol5\",\"id\":9,\"name\":\"a\\\"\\\\x5c\\\\x00\\\\xff\",\"length\":85,\"mark\":0,\"flags\":0,\"volume_kind\":\"raid5\",\"second\":\"\\\\e\",\"children\":1,\"size\":24,\"partition_type\":7,\"guid\":\"cccccccc-cccc-cccc-cccc-cccccccccccc\",\"id1\":null,\"id2\":null,\"size2\":null,\"drive_hint\":null},{\"kind\":\"component\",\"type\":\"cmp3\",\"id\":6,\"name\":\"c6\",\"length\":46,\"mark\":0,\"flags\":0,\"state\":\"ACTIVE\",\"layout_type\":2,\"children\":2,\"parent\":5,\"stripe_size\":null,\"columns\":null},{\"kind\":\"component\",\"type\":\"cmp3\",\"id\":10,\"name\":\"c10\",\"length\":51,\"mark\":0,\"flags\":16,\"state\":\"ACTIVE\",\"layout_type\":3,\"children\":3,\"parent\":9,\"stripe_size\":4,\"columns\":3},{\"kind\":\"partition\",\"type\":\"prt3\",\"id\":7,\"name\":\"p7\",\"length\":48,\"mark\":0,\"flags\":0,\"start\":0,\"volume_offset\":0,\"size\":2048,\"parent\":6,\"disk\":2,\"index\":null},{\"kind\":\"partition\",\"type\":\"prt3\",\"id\":8,\"name\":\"p8\",\"length\":47,\"mark\":0,\"flags\":0,\"start\":2048,\"volume_offset\":2048,\"size\":10,\"parent\":6,\"disk\":2,\"index\":null},{\"kind\":\"partition\",\"type\":\"prt3\",\"id\":11,\"name\":\"p11\",\"length\":50,\"mark\":0,\"flags\":8,\"start\":2058,\"volume_offset\":0,\"size\":12,\"parent\":10,\"disk\":2,\"index\":0},{\"kind\":\"partition\",\"type\":\"prt3\",\"id\":12,\"name\":\"p12\",\"length\":50,\"mark\":0,\"flags\":8,\"start\":0,\"volume_offset\":0,\"size\":12,\"parent\":10,\"disk\":3,\"index\":1},{\"kind\":\"partition\",\"type\":\"prt3\",\"id\":13,\"name\":\"p13\",\"length\":50,\"mark\":0,\"flags\":8,\"start\":0,\"volume_offset\":0,\"size\":12,\"parent\":10,\"disk\":4,\"index\":2}]}
= 0
$ map --json Data 2047 2 on B A
[{\"sector\":2047,\"copy\":0,\"parity\":false,\"disk\":\"Disk1\",\"image\":1,\"path\":\"A\",\"start\":2047,\"image_start\":2110},{\"sector\":2048,\"copy\":0,\"parity\":false,\"disk\":\"Disk1\",\"image\":1,\"path\":\"A\",\"start\":2048,\"image_start\":2111}]
= 0
$ map --json a\"\\x5c\\x00\\xff 0 1 on B A
[{\"sector\":0,\"copy\":0,\"parity\":false,\"disk\":\"Disk1\",\"image\":1,\"path\":\"A\",\"start\":2058,\"image_start\":2121},{\"sector\":0,\"copy\":null,\"parity\":true,\"disk\":\"Disk3\",\"image\":null,\"path\":null,\"start\":0,\"image_start\":null}]
= 0
$ map --json Nope 0 1 on A B C
{\"refused\":{\"kind\":\"no volume\",\"image\":null,\"path\":null,\"other_image\":null,\"other_path\":null,\"rule\":null,\"id\":null,\"reason\":\"no volume\"}}
= 1
$ map --json Data 2057 2 on A B C
{\"refused\":{\"kind\":\"bad range\",\"image\":null,\"path\":null,\"other_image\":null,\"other_path\":null,\"rule\":null,\"id\":null,\"reason\":\"bad range\"}}
= 1
$ map --json Data 0 1 on B C B
{\"refused\":{\"kind\":\"same disk\",\"image\":0,\"path\":\"B\",\"other_image\":2,\"other_path\":\"B\",\"rule\":null,\"id\":null,\"reason\":\"images 0 and 2 are one disk\"}}
= 1
$ check --json on A B
{\"editable\":false,\"kind\":\"absent\",\"reason\":\"disk 4 is absent\",\"images\":[{\"image\":0,\"path\":\"A\",\"sequence\":9,\"headers\":3,\"tables\":4},{\"image\":1,\"path\":\"B\",\"sequence\":9,\"headers\":3,\"tables\":4}],\"absent\":[{\"id\":4,\"name\":\"Disk3\",\"guid\":\"33333333-3333-3333-3333-333333333333\"}]}
= 0
$ show --json on B C B
{\"refused\":{\"kind\":\"same disk\",\"image\":0,\"path\":\"B\",\"other_image\":2,\"other_path\":\"B\",\"rule\":null,\"id\":null,\"reason\":\"images 0 and 2 are one disk\"}}
= 1
! 1.copy+0=00
$ scan on B
image 0 closed disk 22222222-2222-2222-2222-222222222222
= 0
$ scan --json on B
[{\"image\":0,\"path\":\"B\",\"state\":\"closed\",\"group\":null,\"group_guid\":null,\"disk\":null,\"disk_guid\":\"22222222-2222-2222-2222-222222222222\",\"sequence\":null,\"reason\":null,\"format\":null,\"partition_style\":\"mbr\"}]
= 0
$ records --json on B
{\"state\":\"closed\",\"name\":null,\"guid\":null,\"sequence\":null,\"last\":null,\"records\":[]}
= 0
$ check --json on B A C
{\"editable\":true,\"kind\":null,\"reason\":null,\"images\":[{\"image\":0,\"path\":\"B\",\"sequence\":null,\"headers\":3,\"tables\":4},{\"image\":1,\"path\":\"A\",\"sequence\":9,\"headers\":3,\"tables\":4},{\"image\":2,\"path\":\"C\",\"sequence\":9,\"headers\":3,\"tables\":4}],\"absent\":[]}
= 0
$ show --json on B
{\"refused\":{\"kind\":\"no copy\",\"image\":null,\"path\":null,\"other_image\":null,\"other_path\":null,\"rule\":null,\"id\":null,\"reason\":\"no open copy\"}}
= 1
! 2.heads+30=39
$ show --json on C A
{\"refused\":{\"kind\":\"stranger\",\"image\":0,\"path\":\"C\",\"other_image\":null,\"other_path\":null,\"rule\":null,\"id\":null,\"reason\":\"image 0 is not of the group\"}}
= 1
$ scan on C
image 0 group Dg0 aaaaaaaa-aaaa-aaaa-aaaa-aaaaaaaaaaaa no disk 93333333-3333-3333-3333-333333333333 sequence 9
= 0
! 0.mbr+1fe=00
$ scan on A C
image 0 refused: no signature
image 1 group Dg0 aaaaaaaa-aaaa-aaaa-aaaa-aaaaaaaaaaaa no disk 93333333-3333-3333-3333-333333333333 sequence 9
= 0
$ scan --json on A
[{\"image\":0,\"path\":\"A\",\"state\":\"refused\",\"group\":null,\"group_guid\":null,\"disk\":null,\"disk_guid\":null,\"sequence\":null,\"reason\":\"no signature\",\"format\":null,\"partition_style\":null}]
= 0
$ disk --json on A
{\"refused\":{\"kind\":\"label\",\"image\":0,\"path\":\"A\",\"other_image\":null,\"other_path\":null,\"rule\":null,\"id\":null,\"reason\":\"image 0: no signature\"}}
= 1
$ records --json on A
{\"refused\":{\"kind\":\"label\",\"image\":0,\"path\":\"A\",\"other_image\":null,\"other_path\":null,\"rule\":null,\"id\":null,\"reason\":\"image 0: no signature\"}}
= 1
! 2.copy+0=5600
$ records --json on C
{\"refused\":{\"kind\":\"copy\",\"image\":0,\"path\":\"C\",\"other_image\":null,\"other_path\":null,\"rule\":null,\"id\":null,\"reason\":\"image 0: VMDB magic\"}}
= 1
! 0.mbr+0=514649fb
$ scan on A
image 0 refused: no signature: a QCOW2 container
= 0
$ scan --json on A
[{\"image\":0,\"path\":\"A\",\"state\":\"refused\",\"group\":null,\"group_guid\":null,\"disk\":null,\"disk_guid\":null,\"sequence\":null,\"reason\":\"no signature\",\"format\":\"qcow2\",\"partition_style\":null}]
= 0
! 0.mbr+0=4b444d56
$ scan on A
image 0 refused: no signature: a VMDK container
= 0
$ scan --json on A
[{\"image\":0,\"path\":\"A\",\"state\":\"refused\",\"group\":null,\"group_guid\":null,\"disk\":null,\"disk_guid\":null,\"sequence\":null,\"reason\":\"no signature\",\"format\":\"vmdk\",\"partition_style\":null}]
= 0
! 0.mbr+0=636f6e6563746978
$ scan on A
image 0 refused: no signature: a VHD container
= 0
$ scan --json on A
[{\"image\":0,\"path\":\"A\",\"state\":\"refused\",\"group\":null,\"group_guid\":null,\"disk\":null,\"disk_guid\":null,\"sequence\":null,\"reason\":\"no signature\",\"format\":\"vhd\",\"partition_style\":null}]
= 0
! 0.mbr+0=7668647866696c65
$ scan on A
image 0 refused: no signature: a VHDX container
= 0
$ scan --json on A
[{\"image\":0,\"path\":\"A\",\"state\":\"refused\",\"group\":null,\"group_guid\":null,\"disk\":null,\"disk_guid\":null,\"sequence\":null,\"reason\":\"no signature\",\"format\":\"vhdx\",\"partition_style\":null}]
= 0
! 0.mbr+0=4556460900000000
$ scan on A
image 0 refused: no signature: an EWF container
= 0
$ scan --json on A
[{\"image\":0,\"path\":\"A\",\"state\":\"refused\",\"group\":null,\"group_guid\":null,\"disk\":null,\"disk_guid\":null,\"sequence\":null,\"reason\":\"no signature\",\"format\":\"ewf\",\"partition_style\":null}]
= 0
! 0.mbr+0=0000000000000000
! 0.mbr+1c2=ee
! 0.mbr+1fe=55
$ scan on A
image 0 refused: no GPT header
= 0
$ scan --json on A
[{\"image\":0,\"path\":\"A\",\"state\":\"refused\",\"group\":null,\"group_guid\":null,\"disk\":null,\"disk_guid\":null,\"sequence\":null,\"reason\":\"no GPT header\",\"format\":null,\"partition_style\":null}]
= 0
";

#[test]
fn says_json(rt: HostRuntime) -> Result<(), Fail> {
    play(rt.alloc(), &rt, 3, 64, SESSION)
}

// With one image of three, a span lacks its second tile, and a stripe of two columns each second chunk.
// A mirror has a copy left. The eight chunks of a RAID-5 go round its three columns, of which two are
// absent, so five are lost.
const STATES: &str = "\
$ edit on A B C
< create S bbbbbbbb-bbbb-bbbb-bbbb-bbbbbbbbbbbb span Disk1=10 Disk2=5
< create T cccccccc-cccc-cccc-cccc-cccccccccccc stripe 4 8 Disk1 Disk3
< create M dddddddd-dddd-dddd-dddd-dddddddddddd mirror 6 Disk1 Disk2
< create R eeeeeeee-eeee-eeee-eeee-eeeeeeeeeeee raid5 4 16 Disk1 Disk2 Disk3
1 ok 8
2 ok 9
3 ok 10
4 ok 11
= 0 ABC
$ show --json on A
{\"sector_size\":512,\"name\":\"Dg0\",\"guid\":\"aaaaaaaa-aaaa-aaaa-aaaa-aaaaaaaaaaaa\",\"sequence\":11,\"blocks\":22,\"blocks_room\":60,\"disks\":[{\"id\":2,\"name\":\"Disk1\",\"guid\":\"11111111-1111-1111-1111-111111111111\",\"image\":0,\"path\":\"A\",\"data_start\":63,\"data_size\":6081,\"free\":6041,\"largest_free\":6041},{\"id\":3,\"name\":\"Disk2\",\"guid\":\"22222222-2222-2222-2222-222222222222\",\"image\":null,\"path\":null,\"data_start\":null,\"data_size\":null,\"free\":null,\"largest_free\":null},{\"id\":4,\"name\":\"Disk3\",\"guid\":\"33333333-3333-3333-3333-333333333333\",\"image\":null,\"path\":null,\"data_start\":null,\"data_size\":null,\"free\":null,\"largest_free\":null}],\"volumes\":[{\"id\":5,\"name\":\"S\",\"guid\":\"bbbbbbbb-bbbb-bbbb-bbbb-bbbbbbbbbbbb\",\"type\":\"span\",\"size\":15,\"bytes\":7680,\"state\":\"lost\",\"lost_sectors\":5,\"hint\":null,\"components\":[{\"id\":6,\"name\":\"c6\",\"layout\":\"basic\",\"chunk\":null,\"columns\":null,\"partitions\":[{\"id\":7,\"name\":\"p7\",\"disk\":\"Disk1\",\"disk_id\":2,\"start\":0,\"image_start\":63,\"size\":10,\"offset\":0,\"index\":null},{\"id\":8,\"name\":\"p8\",\"disk\":\"Disk2\",\"disk_id\":3,\"start\":0,\"image_start\":null,\"size\":5,\"offset\":10,\"index\":null}]}]},{\"id\":9,\"name\":\"T\",\"guid\":\"cccccccc-cccc-cccc-cccc-cccccccccccc\",\"type\":\"stripe\",\"size\":16,\"bytes\":8192,\"state\":\"lost\",\"lost_sectors\":8,\"hint\":null,\"components\":[{\"id\":10,\"name\":\"c10\",\"layout\":\"stripe\",\"chunk\":4,\"columns\":2,\"partitions\":[{\"id\":11,\"name\":\"p11\",\"disk\":\"Disk1\",\"disk_id\":2,\"start\":10,\"image_start\":73,\"size\":8,\"offset\":0,\"index\":0},{\"id\":12,\"name\":\"p12\",\"disk\":\"Disk3\",\"disk_id\":4,\"start\":0,\"image_start\":null,\"size\":8,\"offset\":0,\"index\":1}]}]},{\"id\":13,\"name\":\"M\",\"guid\":\"dddddddd-dddd-dddd-dddd-dddddddddddd\",\"type\":\"mirror\",\"size\":6,\"bytes\":3072,\"state\":\"degraded\",\"lost_sectors\":null,\"hint\":null,\"components\":[{\"id\":14,\"name\":\"c14\",\"layout\":\"basic\",\"chunk\":null,\"columns\":null,\"partitions\":[{\"id\":15,\"name\":\"p15\",\"disk\":\"Disk1\",\"disk_id\":2,\"start\":18,\"image_start\":81,\"size\":6,\"offset\":0,\"index\":null}]},{\"id\":16,\"name\":\"c16\",\"layout\":\"basic\",\"chunk\":null,\"columns\":null,\"partitions\":[{\"id\":17,\"name\":\"p17\",\"disk\":\"Disk2\",\"disk_id\":3,\"start\":5,\"image_start\":null,\"size\":6,\"offset\":0,\"index\":null}]}]},{\"id\":18,\"name\":\"R\",\"guid\":\"eeeeeeee-eeee-eeee-eeee-eeeeeeeeeeee\",\"type\":\"raid5\",\"size\":32,\"bytes\":16384,\"state\":\"lost\",\"lost_sectors\":20,\"hint\":null,\"components\":[{\"id\":19,\"name\":\"c19\",\"layout\":\"raid\",\"chunk\":4,\"columns\":3,\"partitions\":[{\"id\":20,\"name\":\"p20\",\"disk\":\"Disk1\",\"disk_id\":2,\"start\":24,\"image_start\":87,\"size\":16,\"offset\":0,\"index\":0},{\"id\":21,\"name\":\"p21\",\"disk\":\"Disk2\",\"disk_id\":3,\"start\":11,\"image_start\":null,\"size\":16,\"offset\":0,\"index\":1},{\"id\":22,\"name\":\"p22\",\"disk\":\"Disk3\",\"disk_id\":4,\"start\":8,\"image_start\":null,\"size\":16,\"offset\":0,\"index\":2}]}]}]}
= 0
";

#[test]
fn says_states(rt: HostRuntime) -> Result<(), Fail> {
    play(rt.alloc(), &rt, 3, 64, STATES)
}

// Each reply to a line of a script, or to a command, and each bad place of a volume is a value of its
// own; so is a refusal.
const VALUES: &str = "\
$ try --json on A B C
< create Data bbbbbbbb-bbbb-bbbb-bbbb-bbbbbbbbbbbb span Disk1=2048 Disk1=10
< begin
< extend Data Disk2=5
< commit
< delete Nope
+ nonsense
{\"line\":1,\"result\":\"ok\",\"reason\":null,\"sequence\":8}
{\"line\":2,\"result\":\"held\",\"reason\":null,\"sequence\":null}
{\"line\":3,\"result\":\"held\",\"reason\":null,\"sequence\":null}
{\"line\":4,\"result\":\"ok\",\"reason\":null,\"sequence\":9}
{\"line\":5,\"result\":\"refused\",\"reason\":\"no volume\",\"sequence\":null}
{\"line\":6,\"result\":\"refused\",\"reason\":\"bad line\",\"sequence\":null}
= 1
$ edit --json on A B C
< begin
< cancel
+ create R cccccccc-cccc-cccc-cccc-cccccccccccc raid5 4 12 Disk1 Disk2 Disk3
{\"line\":1,\"result\":\"held\",\"reason\":null,\"sequence\":null}
{\"line\":2,\"result\":\"dropped\",\"reason\":null,\"sequence\":null}
{\"line\":3,\"result\":\"ok\",\"reason\":null,\"sequence\":8}
= 0 ABC
$ edit --json on A B C
= 0
$ create --json Data bbbbbbbb-bbbb-bbbb-bbbb-bbbbbbbbbbbb span Disk1=9999 on A B C
{\"line\":1,\"result\":\"refused\",\"reason\":\"no space 0\",\"sequence\":null}
= 1
$ extend --json R Disk1=8 on A B C
{\"line\":1,\"result\":\"refused\",\"reason\":\"not a span\",\"sequence\":null}
= 1
$ delete --json R on A B
{\"refused\":{\"kind\":\"absent\",\"image\":null,\"path\":null,\"other_image\":null,\"other_path\":null,\"rule\":null,\"id\":4,\"reason\":\"disk 4 is absent\"}}
= 1
$ try --json on A A
< begin
{\"refused\":{\"kind\":\"same disk\",\"image\":0,\"path\":\"A\",\"other_image\":1,\"other_path\":\"A\",\"rule\":null,\"id\":null,\"reason\":\"images 0 and 1 are one disk\"}}
= 1
$ scrub --json R on A B C
{\"volume\":\"R\",\"checked\":12,\"bad\":0}
= 0
! 1.mbr+8e00=01
$ scrub --json R on A B C
{\"sector\":null,\"row\":2,\"offset\":0,\"fault\":\"parity fails\"}
{\"volume\":\"R\",\"checked\":12,\"bad\":1}
= 1
$ scrub --json R on A C
{\"refused\":{\"kind\":\"missing\",\"image\":null,\"path\":null,\"other_image\":null,\"other_path\":null,\"rule\":null,\"id\":3,\"reason\":\"disk 3 is missing\"}}
= 1
$ delete --json R on A B C
{\"line\":1,\"result\":\"ok\",\"reason\":null,\"sequence\":9}
= 0 ABC
$ create --json a\\x20b bbbbbbbb-bbbb-bbbb-bbbb-bbbbbbbbbbbb mirror 100 Disk1 Disk2 on A B C
{\"line\":1,\"result\":\"ok\",\"reason\":null,\"sequence\":10}
= 0 ABC
! 1.mbr+8e00=00
! 1.mbr+145ff=01
$ scrub --json a\\x20b on A B
{\"sector\":99,\"row\":null,\"offset\":null,\"fault\":\"differs\"}
{\"volume\":\"a\\\\x20b\",\"checked\":100,\"bad\":1}
= 1
$ create S dddddddd-dddd-dddd-dddd-dddddddddddd span Disk1=10 on A B C
1 ok 11
= 0 ABC
$ scrub --json S on A B C
{\"refused\":{\"kind\":\"nothing to compare\",\"image\":null,\"path\":null,\"other_image\":null,\"other_path\":null,\"rule\":null,\"id\":null,\"reason\":\"nothing to compare\"}}
= 1
$ scrub --json Nope on A B C
{\"refused\":{\"kind\":\"no volume\",\"image\":null,\"path\":null,\"other_image\":null,\"other_path\":null,\"rule\":null,\"id\":null,\"reason\":\"no volume\"}}
= 1
$ scrub --json on A B C
refused: no volume
= 1
";

#[test]
fn says_values_one_by_one(rt: HostRuntime) -> Result<(), Fail> {
    play(rt.alloc(), &rt, 3, 64, VALUES)
}
