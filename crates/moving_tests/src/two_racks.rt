// Two racks over one folder.
use std::fs;
use volume_disk::{FolderRack, Rack, RackError};

/// Whether each call of a rack fails that stands beside another one.
fn is_shut_out<R: Rack>(rack: &mut R) -> bool {
    rack.size(4) == Err(RackError::Fault)
        && rack.write(4, 0, b"x") == Err(RackError::Fault)
        && rack.cut(4, 0) == Err(RackError::Fault)
}

/// Whether the three bytes of a device are read.
fn reads_abc<R: Rack>(rack: &mut R) -> bool {
    let mut into = [9u8; 4];
    rack.read(4, 0, &mut into) == Ok(3) && into == *b"abc\x09"
}

/// Whether a second rack is shut out while a first one writes, which harms nothing.
fn shuts_out<R: Rack>(rack: &mut R, other: &mut R) -> bool {
    rack.write(4, 0, b"abc").is_ok() && is_shut_out(other) && reads_abc(rack)
}

#[test]
fn second_rack(rt: HostRuntime) {
    let mut other = FolderRack::new(&rt);
    assert!(rt; shuts_out(&mut FolderRack::new(&rt), &mut other));
    assert!(rt; other.size(4) == Ok(3), "the folder is free");
    assert!(rt; fs::remove_file(&rt, "goseed.site/4").is_ok());
    assert!(rt; fs::remove_dir(&rt, "goseed.site").is_ok());
}
