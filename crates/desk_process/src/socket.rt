//! The sockets of a service: of an address and a port, or of a path.

use desk_commands::Address;
use mio::net::{TcpListener, TcpStream, UnixListener, UnixStream};
use mio::{Interest, Registry, Token};
use std::fmt;
use std::fs::{self, Permissions};
use std::io::{self, ErrorKind, Read, Write};
use std::net::{self, Shutdown, SocketAddr};
use std::os::fd::{AsRawFd, RawFd};
use std::os::unix::fs::{FileTypeExt, PermissionsExt};

/// Who may open a path's socket: its owner and its group.
const MODE: u32 = 0o660;

/// A socket that peers connect to. To accept does not block.
#[derive(Drop)]
pub(crate) enum Listener {
    Tcp(TcpListener),
    Unix(UnixListener),
}

/// Where a service listens.
#[derive(Clone, Copy)]
pub(crate) enum At<'a> {
    /// At a port, which may be a free one that was found.
    Port(SocketAddr),
    /// At a path.
    Path(&'a str),
}

impl At<'_> {
    /// Whether the address has a port, so that whoever reaches it can connect.
    pub(crate) fn has_port(&self) -> bool {
        matches!(self, At::Port(_))
    }

    /// Whether only this machine reaches it.
    pub(crate) fn is_loopback(&self) -> bool {
        match self {
            At::Port(addr) => addr.ip().is_loopback(),
            At::Path(_) => true,
        }
    }
}

impl fmt::Display for At<'_> {
    fn fmt<W: fmt::Write>(&self, f: &mut fmt::Formatter<W>) -> fmt::Result {
        match self {
            At::Port(addr) => write!(f, "{addr}"),
            At::Path(path) => write!(f, "unix:{path}"),
        }
    }
}

/// The socket of one connection. To read and to write does not block.
#[derive(Drop)]
pub(crate) enum Stream {
    Tcp(TcpStream),
    Unix(UnixStream),
}

/// Listens at an address and a port.
fn listen_at_port(rt: &HostRuntime, place: &str) -> io::Result<TcpListener> {
    let listener = net::TcpListener::bind(rt, place)?;
    listener.set_nonblocking(true)?;
    Ok(TcpListener::from_std(listener))
}

/// Whether a socket stands at the path. Another kind of file is an error.
fn is_socket(rt: &HostRuntime, path: &str) -> io::Result<bool> {
    match fs::symlink_metadata(rt, path) {
        Ok(found) if found.file_type().is_socket() => Ok(true),
        Ok(_) => Err(io::Error::from(ErrorKind::AlreadyExists)),
        Err(error) if error.kind() == ErrorKind::NotFound => Ok(false),
        Err(error) => Err(error),
    }
}

/// Fails where somebody listens at the path, or where it cannot be told that nobody does.
fn nobody_answers(rt: &HostRuntime, path: &str) -> io::Result<()> {
    match UnixStream::connect(rt, path) {
        Err(error) if error.kind() == ErrorKind::ConnectionRefused => Ok(()),
        Err(error) => Err(error),
        Ok(_) => Err(io::Error::from(ErrorKind::AddrInUse)),
    }
}

/// Listens at a path. A socket that stands there and that nobody answers is replaced.
///
/// The socket is made under another name and takes its place only once its permissions are set: so
/// no other account can connect before.
fn listen_at_path(rt: &HostRuntime, path: &str) -> io::Result<UnixListener> {
    if is_socket(rt, path)? {
        nobody_answers(rt, path)?;
    }
    let Ok(new) = format!(in rt.alloc(); "{path}~") else {
        return Err(io::Error::from(ErrorKind::OutOfMemory));
    };
    if is_socket(rt, new.as_str())? {
        nobody_answers(rt, new.as_str())?;
        fs::remove_file(rt, new.as_str())?;
    }
    let listener = UnixListener::bind(rt, new.as_str())?;
    fs::set_permissions(rt, new.as_str(), Permissions::from_mode(MODE))?;
    fs::rename(rt, new.as_str(), path)?;
    Ok(listener)
}

/// Listens at the address, and tells where that is.
pub(crate) fn listen<'a>(rt: &HostRuntime, addr: &'a Address) -> io::Result<(Listener, At<'a>)> {
    match addr {
        Address::Tcp(place) => {
            let listener = listen_at_port(rt, place.as_str())?;
            let at = At::Port(listener.local_addr()?);
            Ok((Listener::Tcp(listener), at))
        }
        Address::Unix(path) => {
            let listener = listen_at_path(rt, path.as_str())?;
            Ok((Listener::Unix(listener), At::Path(path.as_str())))
        }
    }
}

impl Listener {
    /// The socket of the next peer, or `WouldBlock` where none waits.
    pub(crate) fn accept(&self) -> io::Result<Stream> {
        match self {
            Listener::Tcp(listener) => Ok(Stream::Tcp(listener.accept()?.0)),
            Listener::Unix(listener) => Ok(Stream::Unix(listener.accept()?.0)),
        }
    }

    /// The listener's descriptor.
    pub(crate) fn descriptor(&self) -> RawFd {
        match self {
            Listener::Tcp(listener) => listener.as_raw_fd(),
            Listener::Unix(listener) => listener.as_raw_fd(),
        }
    }

    /// Has the poll tell when a peer waits.
    pub(crate) fn watch(&mut self, registry: &Registry, token: Token) -> io::Result<()> {
        match self {
            Listener::Tcp(listener) => registry.register(listener, token, Interest::READABLE),
            Listener::Unix(listener) => registry.register(listener, token, Interest::READABLE),
        }
    }
}

impl Stream {
    /// Has the poll tell when the peer is ready for this.
    pub(crate) fn watch(
        &mut self,
        registry: &Registry,
        token: Token,
        interest: Interest,
    ) -> io::Result<()> {
        match self {
            Stream::Tcp(stream) => registry.register(stream, token, interest),
            Stream::Unix(stream) => registry.register(stream, token, interest),
        }
    }

    /// Has the poll, which watches the peer, tell nothing more about it.
    pub(crate) fn unwatch(&mut self, registry: &Registry) -> io::Result<()> {
        match self {
            Stream::Tcp(stream) => registry.deregister(stream),
            Stream::Unix(stream) => registry.deregister(stream),
        }
    }

    /// Ends the bytes that go to the peer.
    pub(crate) fn end(&self) -> io::Result<()> {
        match self {
            Stream::Tcp(stream) => stream.shutdown(Shutdown::Write),
            Stream::Unix(stream) => stream.shutdown(Shutdown::Write),
        }
    }
}

impl Read for &Stream {
    fn read(&mut self, buf: &mut [u8]) -> io::Result<usize> {
        match &**self {
            Stream::Tcp(stream) => {
                let mut stream = stream;
                stream.read(buf)
            }
            Stream::Unix(stream) => {
                let mut stream = stream;
                stream.read(buf)
            }
        }
    }
}

impl Write for &Stream {
    fn write(&mut self, buf: &[u8]) -> io::Result<usize> {
        match &**self {
            Stream::Tcp(stream) => {
                let mut stream = stream;
                stream.write(buf)
            }
            Stream::Unix(stream) => {
                let mut stream = stream;
                stream.write(buf)
            }
        }
    }

    fn flush(&mut self) -> io::Result<()> {
        Ok(())
    }
}
