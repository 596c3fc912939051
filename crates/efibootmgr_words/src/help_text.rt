//! What is printed for those who ask for the help or the version.

/// The version of `efibootmgr` whose words are taken.
pub const VERSION: &str = "version 17\n";

/// The words that are taken.
pub const HELP: &str = "\
usage: efibootmgr [options]
\t-a | --active         makes the entry of -b active
\t-A | --inactive       makes the entry of -b inactive
\t-b | --bootnum XXXX   the entry BootXXXX (hexadecimal)
\t-B | --delete-bootnum takes the entry of -b out
\t-c | --create         makes an entry, and puts it first in BootOrder
\t-C | --create-only    makes an entry, and leaves BootOrder as it is
\t-D | --remove-dups    takes repeated numbers out of BootOrder
\t-d | --disk disk      the disk with the loader, or the partition (/dev/sda)
\t-e | --edd30 -1 | 0   as without it
\t-g | --gpt            as without it
\t-l | --loader name    the loader (\\EFI\\debian\\grub.efi)
\t-L | --label label    the description (Linux)
\t-n | --bootnext XXXX  sets BootNext
\t-N | --delete-bootnext takes BootNext out
\t-o | --bootorder XXXX,YYYY,.. sets BootOrder
\t     --keep           with -o, leaves the other entries of BootOrder after these
\t-O | --delete-bootorder takes BootOrder out
\t-p | --part part      the number of the partition with the loader (1)
\t-q | --quiet          lists nothing
\t-r | --driver         the same of drivers: DriverXXXX and DriverOrder
\t-t | --timeout seconds sets Timeout
\t-T | --delete-timeout takes Timeout out
\t-u | --unicode | --UCS-2 stores other words in UTF-16
\t-v | --verbose        lists paths and optional data too
\t-V | --version        prints the version whose words are taken
\t-w | --write-signature as without it: the disk needs its signature
\t-y | --sysprep        the same of SysPrepXXXX and SysPrepOrder
\t-@ | --append-binary-args file optional data (\"-\" is standard input)
\t-h | --help           prints this
";
